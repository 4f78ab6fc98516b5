// The max flow of an hour (requests S-3 and S-13), by augmenting paths, in a lent scratch.
#![tactic(auto)]

ghost use Rattle.std.specs.Prelude.{◌≡◌, ℕ, ◌≤◌, ◌<◌, length, get_or, pos};
ghost use Rattle.base_integers.specs.Meaning.Difference.{up};
ghost use Rattle.base_integers.specs.Meaning.NaturalSums.{sum_nat};
ghost use Rattle.flow_pairs.specs.Meaning.Pairs.{network_of};
ghost use Rattle.flow_scratch.specs.Meaning.Places.{flow_of};
ghost use Rattle.flow_scratch.specs.Steps.Scratch.{Rest};
ghost use Rattle.flow_scratch.specs.Meaning.Cleared.{Cleared};
ghost use Rattle.flow_augment.specs.Steps.Lacking.{State};
ghost use Rattle.flow_augment.specs.Meaning.Path.{InputsInRange};
ghost use Rattle.flow_max.specs.Meaning.MaxFlow.{MaxFlowAnswer};
ghost use Rattle.flow_max.specs.Steps.Filled.{Filled};

use flow_augment::augment;
use flow_pairs::pair_table;
use flow_scratch::{AMOUNTS, amount, clear, import_left};
use flow_search::Exchanges;

// Whether every export is carried to imports, and the largest total that is carried, in tenths. No Option: for a no,
// too, the total is the largest (`MaxFlowAnswer`).
#[derive(Clone, Copy)]
pub struct MaxFlow {
    pub all: bool,
    pub total: u64,
}

// Augments as long as the search reaches a zone with import left. The flow is empty at first. No `for`: how many paths
// there are shows as the last is left.
fn fill(exchanges: &Exchanges, s: &mut [i64]) -> u64
    requires in_bounds { 96 ≤ length s.old }
    requires state { State (network_of exchanges.now.net_exports.now exchanges.now.prices.now exchanges.now.pairs.now) (flow_of s.old) 0 }
    ensures filled { Filled (network_of exchanges.now.net_exports.now exchanges.now.prices.now exchanges.now.pairs.now) (flow_of s.new) result }
    ensures rest { Rest s.old s.new }
{
    let mut total = 0;
    loop {
        let labels = exchanges.search(s);
        let Some(t) = labels.sink else {
            return total;
        };
        let left = import_left(exchanges.net_exports, s, t);
        let d = left.min(labels.zones[t].amount);
        augment(exchanges.pairs, s, labels, t, d);
        total += d;
    }
}

fn all_exports(net_exports: &[i64]) -> u64
    requires { (length net_exports.now ≤ 16) × ((z : ℕ) → z < length net_exports.now → up (get_or net_exports.now z (pos 0)) ≤ 51200000) }
    ensures { result ≡ sum_nat (length net_exports.now) (λ z. up (get_or net_exports.now z (pos 0))) }
{
    let mut sum = 0;
    for z in 0..net_exports.len() {
        sum += amount(net_exports, z);
    }
    sum
}

// With a scratch of at least n numbers, the first n of which are zero afterwards. A flow takes 96.
pub fn max_flow(
    net_exports: &[i64],
    prices: &[i64],
    pairs: &[u8],
    s: &mut [i64],
    n: usize,
) -> MaxFlow
    requires inputs_in_range { InputsInRange net_exports.now prices.now pairs.now }
    requires le_n { (96 ≤ n) × (n ≤ length s.old) }
    ensures answer { MaxFlowAnswer (network_of net_exports.now prices.now pairs.now) result.all result.total }
    ensures total { result.total ≤ 819200000 }
    ensures scratch { Cleared n s.old s.new }
{
    let table = pair_table(pairs);
    let exchanges = Exchanges {
        net_exports,
        prices,
        pairs,
        table: &table,
    };
    clear(s, AMOUNTS);
    let carried = fill(&exchanges, s);
    clear(s, n);
    let exports = all_exports(net_exports);
    MaxFlow {
        all: carried == exports,
        total: carried,
    }
}
