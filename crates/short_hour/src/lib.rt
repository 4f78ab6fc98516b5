// The shortfalls of an hour (request S-14): the hour is judged and, if it is accepted, two numbers are written for
// each order, then each branch, then each link.
#![tactic(auto)]

ghost use Rattle.std.specs.Prelude.{◌≡◌, ◌+◌, ◌*◌, ◌≤◌, length};
ghost use Rattle.std.proofs.lemmas.List.Edits.{sets};
ghost use Rattle.base_output.specs.Meaning.Output.{written_of};
ghost use Rattle.case_branches.specs.Meaning.Table.{table_of};
ghost use Rattle.short_rules.specs.Meaning.Answer.{pairs_to, shortfall_numbers};
ghost use Rattle.short_single.specs.Meaning.OfHour.{counts_of, order_of, branch_of, link_of, hour_of, cleared_of, rates_of};
ghost use Rattle.short_hour.specs.Meaning.HourShortfalls.{HourShortfalls};
ghost use Rattle.short_hour.specs.Steps.Pairs.{numbers_in, Writable, count_of};

use base_causes::{Outcome, refused};
use base_measures::ExactMicrocents;
use base_output::Written;
use case_branches::ptdf_table;
use judge_stages::find;
use short_single::AcceptedHour;

// Pair n: whole microcents, and the parts besides.
fn put(out: &mut [i64], n: usize, x: ExactMicrocents)
    requires n_bound { n ≤ 640 }
    requires n_in_bounds { 2 * n + 2 ≤ length out.old }
    requires writable { Writable x }
    ensures { out.new ≡ sets out.old (2 * n) (numbers_in x) }
{
    out[2 * n] = x.whole().0.cast_signed();
    out[2 * n + 1] = x.parts().0.cast_signed();
}

// Three loops, and not one that takes a closure: that was tried, and what each call asks of the closure did not prove
// but by the kit's own names.
fn put_orders(hour: &AcceptedHour<'_>, out: &mut [i64])
    requires { 2 * (counts_of hour.now).orders ≤ length out.old }
    ensures { out.new ≡ sets out.old 0 (pairs_to (counts_of hour.now).orders (order_of hour.now)) }
{
    for i in 0..hour.hour.case.counts.orders {
        put(out, i, hour.order_shortfall(i));
    }
}

fn put_branches(hour: &AcceptedHour<'_>, table: [[i32; 16]; 64], out: &mut [i64])
    requires table_value { table ≡ table_of hour.now.hour.«case».bytes.now }
    requires room { 2 * ((counts_of hour.now).orders + (counts_of hour.now).branches) ≤ length out.old }
    ensures { out.new ≡ sets out.old (2 * (counts_of hour.now).orders)
        (pairs_to (counts_of hour.now).branches (branch_of hour.now)) }
{
    let k = hour.hour.case.counts;
    for m in 0..k.branches {
        put(out, k.orders + m, hour.branch_shortfall(table[m], m));
    }
}

fn put_links(hour: &AcceptedHour<'_>, out: &mut [i64])
    requires { 2 * count_of (counts_of hour.now) ≤ length out.old }
    ensures { out.new ≡ sets out.old (2 * ((counts_of hour.now).orders + (counts_of hour.now).branches))
        (pairs_to (counts_of hour.now).links (link_of hour.now)) }
{
    let k = hour.hour.case.counts;
    for l in 0..k.links {
        put(out, k.orders + k.branches + l, hour.link_shortfall(l));
    }
}

// All pairs of an accepted hour.
fn put_all(hour: &AcceptedHour<'_>, out: &mut [i64])
    requires { 2 * count_of (counts_of hour.now) ≤ length out.old }
    ensures { out.new ≡ sets out.old 0 (shortfall_numbers (hour_of hour.now) (cleared_of hour.now) (rates_of hour.now)) }
{
    let table = ptdf_table(hour.hour.case);
    put_orders(hour, out);
    put_branches(hour, table, out);
    put_links(hour, out);
}

// How many numbers were written; or the judgement's refusal, or 86 where the output is too short.
fn shortfalls(case: &[u8], proposal: &[u8], out: &mut [i64]) -> Result<usize, Outcome>
    ensures { HourShortfalls «case».now proposal.now out.old (written_of result) out.new }
{
    let found = find(case, proposal)?;
    // A valued hour's verdict is 0 or 26.
    if found.verdict.number != 0 {
        return refused(found.verdict.number, found.verdict.index);
    }
    let hour = AcceptedHour {
        hour: found.hour,
        prices: found.prices,
        parts: found.cleared.parts,
    };
    let k = found.hour.case.counts;
    let length = 2 * (k.orders + k.branches + k.links);
    if out.len() < length {
        return refused(86, 0);
    }
    put_all(&hour, out);
    Ok(length)
}

// The same as C reads it. `host` exports it.
pub fn hour_shortfalls(case: &[u8], proposal: &[u8], out: &mut [i64]) -> Written
    ensures { HourShortfalls «case».now proposal.now out.old result out.new }
{
    Written::from(shortfalls(case, proposal, out))
}
