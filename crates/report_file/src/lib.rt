// The report, written into the lent buffer: mark, version, number, zones, the totals and the zone prices.
#![tactic(auto)]

ghost use Rattle.std.specs.Prelude.{◌≡◌, ◌++◌, ◌≤◌, length, drop};
ghost use Rattle.std.proofs.lemmas.List.Edits.{sets};
ghost use Rattle.rules.specs.Meaning.Layout.{welfare_at, prices_at, zone_price_at};
ghost use Rattle.rules.specs.Meaning.Report.{header_bytes, total_bytes, price_bytes, report_text};
ghost use Rattle.report_file.specs.Meaning.Written.{totals_in};
ghost use Rattle.report_file.specs.Meaning.Prices.{grains_at};

use base_measures::{Grains, Measure, Microcents};
use bytes_write::put;

#[derive(Clone, Copy)]
pub struct Totals {
    pub welfare: Microcents,
    pub bound: Microcents,
    pub gap: Microcents,
    pub rent: Microcents,
    pub owed: Microcents,
}

#[tactic(auto, unfolding(rules::specs::Meaning::Report::header_bytes, base_integers::specs::Meaning::Bytes::bytes_of))]
fn put_header(report: &mut [u8], number: u8, zones: u8)
    requires { welfare_at ≤ length report.old }
    ensures { report.new ≡ sets report.old 0 (header_bytes number zones) }
{
    report[0] = layout::MARK_FIRST;
    report[1] = layout::MARK_SECOND;
    report[2] = layout::REPORT_LETTER;
    report[layout::REPORT_VERSION_AT] = 1;
    report[layout::REPORT_VERSION_AT + 1] = 0;
    report[layout::REPORT_NUMBER_AT] = number;
    report[layout::REPORT_ZONES_AT] = zones;
    report[layout::REPORT_ZERO_AT] = 0;
}

fn put_totals(report: &mut [u8], totals: Totals)
    requires { prices_at ≤ length report.old }
    ensures { report.new ≡ sets report.old welfare_at (total_bytes (totals_in totals)) }
{
    put::<8>(report, layout::WELFARE_AT, totals.welfare.bits());
    put::<8>(report, layout::BOUND_AT, totals.bound.bits());
    put::<8>(report, layout::GAP_AT, totals.gap.bits());
    put::<8>(report, layout::RENT_AT, totals.rent.bits());
    put::<8>(report, layout::OWED_AT, totals.owed.bits());
}

fn put_prices(report: &mut [u8], zones: usize, prices: [Grains; layout::ZONES])
    requires zones_bound { zones ≤ 16 }
    requires zones_in_bounds { zone_price_at zones ≤ length report.old }
    ensures { report.new ≡ sets report.old prices_at (price_bytes zones (grains_at prices)) }
{
    for (z, price) in prices[..zones].iter().enumerate() {
        put::<8>(
            report,
            layout::PRICES_AT + layout::ZONE_PRICE * z,
            price.bits(),
        );
    }
}

// The whole report; all past it is unchanged.
pub fn write_report(
    report: &mut [u8],
    number: u8,
    zones: u8,
    totals: Totals,
    prices: [Grains; layout::ZONES],
)
    requires zones_bound { zones ≤ 16 }
    requires zones_in_bounds { zone_price_at zones ≤ length report.old }
    ensures { report.new ≡ report_text number zones (totals_in totals) (grains_at prices) ++ drop (zone_price_at zones) report.old }
{
    put_header(report, number, zones);
    put_totals(report, totals);
    put_prices(report, usize::from(zones), prices);
}
