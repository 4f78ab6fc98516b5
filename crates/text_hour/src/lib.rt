// The lines of an hour, put into a lent buffer at a position: the verdict, the totals and the zones' prices. Each
// function returns the position past its text, as in text_decimal, which says why.
#![tactic(auto)]

ghost use Rattle.std.specs.Prelude.{◌++◌, ◌+◌, ◌≤◌, length};
ghost use Rattle.text_rules.specs.Meaning.Ascii.{ascii};
ghost use Rattle.text_rules.specs.Meaning.Text.{count_text};
ghost use Rattle.text_rules.specs.Meaning.Put.{Put};
ghost use Rattle.rules.specs.Meaning.Lines.{verdict_line, total_line, price_line, total_lines, price_lines, hour_lines};
ghost use Rattle.report_file.specs.Meaning.Written.{totals_in};
ghost use Rattle.report_file.specs.Meaning.Prices.{grains_at};

use base_causes::Outcome;
use base_measures::{Grains, Measure, Microcents};
use report_file::Totals;
use text_decimal::{put_amount, put_count};

// Decimals of an amount of money in euros, held in microcents, and of a price in euros per MWh, held in grains.
const MONEY_DECIMALS: usize = 8;

const PRICE_DECIMALS: usize = 7;

fn put_text(out: &mut [u8], at: usize, text: &[u8]) -> usize
    requires { at + length text.now ≤ length out.old }
    ensures { Put out.old at text.now out.new result }
{
    let end = at + text.len();
    out[at..end].copy_from_slice(text);
    end
}

// A line's name, a count and a space.
fn put_named(out: &mut [u8], at: usize, name: &[u8], n: u64) -> usize
    requires { at + length (name.now ++ count_text n ++ ascii " ") ≤ length out.old }
    ensures { Put out.old at (name.now ++ count_text n ++ ascii " ") out.new result }
{
    let count = put_text(out, at, name);
    let end = put_count(out, count, n);
    put_text(out, end, b" ")
}

// First line: number, index.
pub fn put_verdict(out: &mut [u8], at: usize, v: Outcome) -> usize
    requires { at + length (verdict_line v) ≤ length out.old }
    ensures { Put out.old at (verdict_line v) out.new result }
{
    let index = put_named(out, at, b"verdict ", u64::from(v.number));
    let end = put_count(out, index, u64::from(v.index));
    put_text(out, end, b"\n")
}

// A total's name, and its amount in euros.
fn put_total(out: &mut [u8], at: usize, name: &[u8], total: Microcents) -> usize
    requires { at + length (total_line name.now total.0) ≤ length out.old }
    ensures { Put out.old at (total_line name.now total.0) out.new result }
{
    let amount = put_text(out, at, name);
    let end = put_amount::<MONEY_DECIMALS>(out, amount, total.bits());
    put_text(out, end, b"\n")
}

// A zone, and its price in euros per MWh.
fn put_zone(out: &mut [u8], at: usize, zone: usize, price: Grains) -> usize
    requires { at + length (price_line zone price.0) ≤ length out.old }
    ensures { Put out.old at (price_line zone price.0) out.new result }
{
    let amount = put_named(out, at, b"price ", zone as u64);
    let end = put_amount::<PRICE_DECIMALS>(out, amount, price.bits());
    put_text(out, end, b"\n")
}

fn put_totals(out: &mut [u8], at: usize, totals: Totals) -> usize
    requires { at + length (total_lines (totals_in totals)) ≤ length out.old }
    ensures { Put out.old at (total_lines (totals_in totals)) out.new result }
{
    let bound = put_total(out, at, b"welfare ", totals.welfare);
    let gap = put_total(out, bound, b"bound ", totals.bound);
    let rent = put_total(out, gap, b"gap ", totals.gap);
    let owed = put_total(out, rent, b"rent ", totals.rent);
    put_total(out, owed, b"owed ", totals.owed)
}

fn put_prices(out: &mut [u8], at: usize, zones: usize, prices: [Grains; 16]) -> usize
    requires zones_bound { zones ≤ 16 }
    requires prices_in_bounds { at + length (price_lines zones (grains_at prices)) ≤ length out.old }
    ensures { Put out.old at (price_lines zones (grains_at prices)) out.new result }
{
    let mut next = at;
    for (z, price) in prices[..zones].iter().enumerate() {
        next = put_zone(out, next, z, *price);
    }
    next
}

// The lines after the first.
pub fn put_hour(
    out: &mut [u8],
    at: usize,
    zones: usize,
    totals: Totals,
    prices: [Grains; 16],
) -> usize
    requires zones_bound { zones ≤ 16 }
    requires prices_in_bounds { at + length (hour_lines zones (totals_in totals) (grains_at prices)) ≤ length out.old }
    ensures { Put out.old at (hour_lines zones (totals_in totals) (grains_at prices)) out.new result }
{
    let first_price = put_totals(out, at, totals);
    put_prices(out, first_price, zones, prices)
}
