// Zone prices within their limits, with the congestion rent (verdict 25, rule 11); order surpluses, link total,
// owed and the five totals (rules 7 to 11).
#![tactic(auto)]

ghost use Rattle.std.specs.Prelude.{◌≡◌, cond, ◌≤◌, eqb, ◌*ℤ◌, IfOk, IfErr};
ghost use Rattle.std.proofs.Math.Option.{none, some};
ghost use Rattle.base_integers.specs.Meaning.Order.{larger};
ghost use Rattle.base_integers.specs.Meaning.Ranges.{outside};
ghost use Rattle.base_integers.specs.Meaning.Sums.{sum_to};
ghost use Rattle.base_limits.specs.Meaning.Limits as limits;
ghost use Rattle.rules.specs.Meaning.Hour as rules;
ghost use Rattle.rules.specs.Meaning.Report.{totals_of};
ghost use Rattle.base_causes.specs.Meaning.Causes.{first_below};
ghost use Rattle.proposal_file.specs.Meaning.InRange.{VolumesInRange};
ghost use Rattle.base_measures.specs.Meaning.TenthsHold.{tenths_at};
ghost use Rattle.report_file.specs.Meaning.Prices.{grains_at};
ghost use Rattle.report_file.specs.Meaning.Written.{totals_in};
ghost use Rattle.judge_totals.specs.Meaning.Rent.{RentFits};
ghost use Rattle.judge_totals.specs.Meaning.Priced.{case_in, plan_in, prices_in};

mod priced;

use base_measures::{Grains, Measure, Microcents, Tenths};
use book_order::surplus;
use case_links::{contracted_at, link_at};
use case_orders::order_at;
pub use priced::PricedHour;
use report_file::Totals;

// Verdict 25 and rule 11, in one pass over the zones: the congestion rent, or the first zone whose price is outside
// its limits. The rent fits as long as the prices are within their limits.
pub fn zone_sums(
    nets: [Tenths; layout::ZONES],
    prices: [Grains; layout::ZONES],
    zones: usize,
) -> Result<Microcents, usize>
    requires zones_bound { zones ≤ 16 }
    requires rent_fits { RentFits nets prices zones }
    ensures outside { IfErr result (λ z. first_below zones (λ z. outside limits.zone_price (grains_at prices z)) ≡ some z) }
    ensures within { IfOk result (λ _. first_below zones (λ z. outside limits.zone_price (grains_at prices z)) ≡ none) }
    ensures rent { IfOk result (λ rent. rent.0 ≡ sum_to zones (λ z. tenths_at nets z *ℤ grains_at prices z)) }
{
    let mut sum = Microcents::ZERO;
    for z in 0..zones {
        let price = prices[z];
        let Some(_) = price.zone_price() else {
            return Err(z);
        };
        sum = sum.plus(nets[z].cost(price));
    }
    Ok(sum)
}

// Rule 8: all order surpluses.
pub fn surpluses(priced: PricedHour<'_>) -> Microcents
    ensures { result.0 ≡ rules.surplus (case_in priced.entry) (prices_in priced.entry) }
{
    let case = priced.hour.case;
    let mut sum = Microcents::ZERO;
    for i in 0..case.counts.orders {
        let order = order_at(case, i);
        let zone = order.zone;
        sum = sum.plus(surplus(order, priced.prices[zone]));
    }
    sum
}

// One pass over the links: rule 10's link total, and owed.
#[derive(Clone, Copy)]
pub struct LinkTotals {
    pub total: Microcents,
    pub owed: Microcents,
}

// Rule 9: capacities and contracted volumes (S-4) at the positive spreads. A negative spread makes the product
// negative, so the product is raised to zero.
pub fn link_totals(priced: PricedHour<'_>) -> LinkTotals
    ensures total { result.total.0 ≡ rules.link_total (case_in priced.entry) (prices_in priced.entry) }
    ensures owed { result.owed.0 ≡ rules.owed (case_in priced.entry) (prices_in priced.entry) }
{
    let case = priced.hour.case;
    let mut total = Microcents::ZERO;
    let mut owed = Microcents::ZERO;
    for l in 0..case.counts.links {
        let link = link_at(case, l);
        let capacity = link.capacity;
        let contracted = contracted_at(case, l, capacity);
        let to = link.to;
        let from = link.from;
        let spread = priced.prices[to].minus(priced.prices[from]);
        total = total.plus(capacity.cost(spread).positive());
        owed = owed.plus(contracted.cost(spread).positive());
    }
    LinkTotals { total, owed }
}

// Rule 10's part of the network: the larger of both totals; without links the branch total alone, even a negative
// one (S-6).
fn network_bound(links: usize, on_branches: Microcents, on_links: Microcents) -> Microcents
    ensures { result.0 ≡ cond (eqb links 0) on_branches.0 (larger on_branches.0 on_links.0) }
{
    if links == 0 {
        return on_branches;
    }
    on_branches.max(on_links)
}

// Rules 7 to 11: the five totals of a cleared hour with its prices within their limits.
// Row 21 is a clause here, and no part of `PricedHour`: the surpluses and the link totals hold without it.
pub fn totals(
    priced: PricedHour<'_>,
    total_welfare: Microcents,
    on_branches: Microcents,
    congestion: Microcents,
) -> Totals
    requires volumes_in_range { VolumesInRange (case_in priced) (plan_in priced) }
    requires on_branches_value { on_branches.0 ≡ rules.branch_total (case_in priced) (prices_in priced) }
    requires total_welfare_value { total_welfare.0 ≡ rules.welfare (case_in priced) (plan_in priced) }
    requires congestion_value { congestion.0 ≡ rules.rent (case_in priced) (plan_in priced) (prices_in priced) }
    ensures { totals_in result ≡ totals_of (case_in priced.entry) (plan_in priced.entry) (prices_in priced.entry) }
{
    let LinkTotals { total, owed } = link_totals(priced);
    let network = network_bound(priced.hour.case.counts.links, on_branches, total);
    let bound = surpluses(priced).plus(network);
    let gap = bound.minus(total_welfare);
    Totals {
        welfare: total_welfare,
        bound,
        gap,
        rent: congestion,
        owed,
    }
}
