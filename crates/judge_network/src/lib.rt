// Branches in one pass, with the branch rule, zone prices and branch total (verdict 24, rules 5, 6 and 9).
#![tactic(auto)]

ghost use Rattle.std.specs.Prelude.{◌≡◌, IfOk, IfErr};
ghost use Rattle.std.proofs.Math.Option.{none, some};
ghost use Rattle.rules.specs.Meaning.Hour.{case_of, plan_of, prices_of, fb_part};
ghost use Rattle.rules.specs.Meaning.Hour as rules;
ghost use Rattle.base_causes.specs.Meaning.Causes.{failing};
ghost use Rattle.rules.specs.Meaning.Verdict.{overloaded_branch};
ghost use Rattle.case_branches.specs.Meaning.Table.{table_of};
ghost use Rattle.proposal_file.specs.Meaning.InRange.{FlowsInRange};
ghost use Rattle.base_measures.specs.Meaning.TenthsHold.{TenthsHold};
ghost use Rattle.report_file.specs.Meaning.Prices.{PricesHold};

use base_measures::{Grains, Load, Measure, Microcents, Ptdf, Tenths};
use case_branches::margin_at;
use proposal_file::{FilledHour, shadow_at};

// The price of each zone, and the branch total.
#[derive(Clone, Copy)]
pub struct Network {
    pub prices: [Grains; layout::ZONES],
    pub total: Microcents,
}

// Rules 5, 6 and 9, and verdict 24, in one pass over the branches: the sums, or the first branch loaded above its
// margin times the flow-based share.
pub fn branch_sums(
    filled: FilledHour<'_>,
    table: [[i32; 16]; 64],
    parts: [Tenths; layout::ZONES],
) -> Result<Network, usize>
    requires flows_in_range { FlowsInRange (case_of filled.hour.case.bytes.now)
        (plan_of filled.hour.case.bytes.now filled.hour.proposal.now) }
    requires table_value { table ≡ table_of filled.hour.case.bytes.now }
    requires tenths_hold { TenthsHold (fb_part (case_of filled.hour.case.bytes.now)
        (plan_of filled.hour.case.bytes.now filled.hour.proposal.now)) parts }
    ensures overloaded { IfErr result (λ m. failing (overloaded_branch (case_of filled.entry.hour.case.bytes.now)
        (plan_of filled.entry.hour.case.bytes.now filled.entry.hour.proposal.now)) ≡ some m) }
    ensures within { IfOk result (λ _. failing (overloaded_branch (case_of filled.entry.hour.case.bytes.now)
        (plan_of filled.entry.hour.case.bytes.now filled.entry.hour.proposal.now)) ≡ none) }
    ensures prices { IfOk result (λ sums. PricesHold (case_of filled.entry.hour.case.bytes.now)
        (prices_of filled.entry.hour.case.bytes.now filled.entry.hour.proposal.now) sums.prices) }
    ensures total { IfOk result (λ sums. sums.total.0 ≡ rules.branch_total (case_of filled.entry.hour.case.bytes.now)
        (prices_of filled.entry.hour.case.bytes.now filled.entry.hour.proposal.now)) }
{
    let hour = filled.hour;
    let case = hour.case;
    let flow_based = hour.opening.share.flow_based();
    let mut prices = [hour.opening.system.in_grains(); layout::ZONES];
    let mut total = Microcents::ZERO;
    for m in 0..case.counts.branches {
        let shadow = shadow_at(hour, m);
        let margin = margin_at(case, m);
        let mut load = Load::ZERO;
        for z in 0..case.counts.zones {
            let ptdf = Ptdf::of_entry(table[m][z]);
            load = load.plus(ptdf.load(parts[z]));
            prices[z] = prices[z].plus(ptdf.price(shadow));
        }
        if flow_based.of_volume(margin) < load {
            return Err(m);
        }
        total = total.plus(margin.cost(shadow.in_grains()));
    }
    Ok(Network { prices, total })
}
