// Orders and links of a proposal, in one pass each: volumes with net positions and welfare (verdict 21, rules 1 and
// 7), the balance (22), and the link rule with the flow-based parts (23, rules 2 and 4).
#![tactic(auto)]

ghost use Rattle.std.specs.Prelude.{◌≡◌, ◌+◌, ◌≤◌, ℤ, IfOk, IfErr};
ghost use Rattle.std.proofs.Math.Option.{none, some};
ghost use Rattle.std.specs.Int.{w64};
ghost use Rattle.std.proofs.Common.{SFits};
ghost use Rattle.base_integers.specs.Meaning.Machine.{SumsFit};
ghost use Rattle.base_integers.specs.Meaning.Sums.{sum_to};
ghost use Rattle.rules.specs.Meaning.Hour.{case_of, plan_of, net, fb_part};
ghost use Rattle.rules.specs.Meaning.Hour as rules;
ghost use Rattle.base_causes.specs.Meaning.Causes.{failing};
ghost use Rattle.rules.specs.Meaning.Verdict.{excess_volume, overused_link};
ghost use Rattle.base_measures.specs.Meaning.TenthsHold.{tenths_at, TenthsHold};

use base_measures::{Measure, Microcents, Tenths};
use case_links::link_at;
use case_orders::order_at;
use proposal_file::{FilledHour, HourRead, flow_at, volume_at};

// What an order adds to its zone's net position: a buy its volume, a sell minus its volume.
fn signed_volume(buys: bool, volume: Tenths) -> Tenths
    requires { SFits w64 (rules.signed buys volume.0) }
    ensures { result.0 ≡ rules.signed buys volume.0 }
{
    if buys {
        return volume;
    }
    Tenths::ZERO.minus(volume)
}

// The net position of each zone, and the welfare.
#[derive(Clone, Copy)]
pub struct OrderSums {
    pub nets: [Tenths; layout::ZONES],
    pub welfare: Microcents,
}

// Rules 1 and 7, and verdict 21, in one pass over the orders: the sums, or the first order whose volume is above its
// quantity.
pub fn order_sums(hour: HourRead<'_>) -> Result<OrderSums, usize>
    ensures excess { IfErr result (λ i. failing (excess_volume (case_of hour.entry.case.bytes.now)
        (plan_of hour.entry.case.bytes.now hour.entry.proposal.now)) ≡ some i) }
    ensures within { IfOk result (λ _. failing (excess_volume (case_of hour.entry.case.bytes.now)
        (plan_of hour.entry.case.bytes.now hour.entry.proposal.now)) ≡ none) }
    ensures nets { IfOk result (λ sums. TenthsHold (net (case_of hour.entry.case.bytes.now)
        (plan_of hour.entry.case.bytes.now hour.entry.proposal.now)) sums.nets) }
    ensures welfare { IfOk result (λ sums. sums.welfare.0 ≡ rules.welfare (case_of hour.entry.case.bytes.now)
        (plan_of hour.entry.case.bytes.now hour.entry.proposal.now)) }
{
    let case = hour.case;
    let mut nets = [Tenths::ZERO; layout::ZONES];
    let mut welfare = Microcents::ZERO;
    for i in 0..case.counts.orders {
        let order = order_at(case, i);
        let volume = volume_at(hour, i);
        if order.quantity < volume {
            return Err(i);
        }
        let zone = order.zone;
        let signed = signed_volume(order.buys, volume);
        nets[zone] = nets[zone].plus(signed);
        welfare = welfare.plus(signed.cost(order.price.in_grains()));
    }
    Ok(OrderSums { nets, welfare })
}

// Rule 3: the sum of the net positions. `zones` is a bare count: a type for a bounded one would be opened at each
// range, slice and clause. That the sums fit is a fact about all entries at once.
pub fn net_sum(nets: [Tenths; layout::ZONES], zones: usize) -> Tenths
    requires zones_bound { zones ≤ 16 }
    requires sums_fit { SumsFit (λ z. tenths_at nets z) zones }
    ensures { result.0 ≡ sum_to zones (λ z. tenths_at nets z) }
{
    let mut sum = Tenths::ZERO;
    for z in 0..zones {
        sum = sum.plus(nets[z]);
    }
    sum
}

// Rules 2 and 4, and verdict 23, in one pass over the links: the flow-based part of each zone, its net position less
// its LTA part, or the first link whose flow, times 100,000, is above the LTA share times its capacity.
pub fn link_sums(
    filled: FilledHour<'_>,
    nets: [Tenths; layout::ZONES],
) -> Result<[Tenths; layout::ZONES], usize>
    requires tenths_hold { TenthsHold (net (case_of filled.hour.case.bytes.now)
        (plan_of filled.hour.case.bytes.now filled.hour.proposal.now)) nets }
    ensures overused { IfErr result (λ l. failing (overused_link (case_of filled.entry.hour.case.bytes.now)
        (plan_of filled.entry.hour.case.bytes.now filled.entry.hour.proposal.now)) ≡ some l) }
    ensures within { IfOk result (λ _. failing (overused_link (case_of filled.entry.hour.case.bytes.now)
        (plan_of filled.entry.hour.case.bytes.now filled.entry.hour.proposal.now)) ≡ none) }
    ensures parts { IfOk result (λ parts. TenthsHold (fb_part (case_of filled.entry.hour.case.bytes.now)
        (plan_of filled.entry.hour.case.bytes.now filled.entry.hour.proposal.now)) parts) }
{
    let hour = filled.hour;
    let case = hour.case;
    let share = hour.opening.share;
    let mut parts = nets;
    for l in 0..case.counts.links {
        let link = link_at(case, l);
        let flow = flow_at(hour, l);
        if share.of_volume(link.capacity) < flow.scaled_by_one() {
            return Err(l);
        }
        let to = link.to;
        parts[to] = parts[to].minus(flow);
        let from = link.from;
        parts[from] = parts[from].plus(flow);
    }
    Ok(parts)
}
