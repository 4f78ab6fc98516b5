// The search for an augmenting path (request S-3): breadth first from the zones with export left, along counted
// pairs and back along pairs that carry something, until it reaches a zone with import left.
#![tactic(auto)]

ghost use Rattle.std.specs.Prelude.{◌≡◌, ◌≤◌, ◌<◌, length, get_or};
ghost use Rattle.flow_pairs.specs.Meaning.Pairs.{pair_count};
ghost use Rattle.flow_pairs.specs.Meaning.Table.{PairsTabled};
ghost use Rattle.flow_augment.specs.Meaning.Path.{InputsInRange, unreached};
ghost use Rattle.flow_search.specs.Steps.Labelling.{Seeded};
ghost use Rattle.flow_search.specs.Steps.Arcs.{PairFrom, PairOn, Tried};
ghost use Rattle.flow_search.specs.Meaning.SearchAnswer.{SearchAnswer};

use flow_augment::{Label, Labels};
use flow_pairs::{TABLE, pair_of};
use flow_scratch::{amount, counts, export_left, import_left};

// What is exchanged in an hour that no row refuses, and its pairs as a table.
#[derive(Clone, Copy)]
pub struct Exchanges<'a> {
    pub net_exports: &'a [i64],
    pub prices: &'a [i64],
    pub pairs: &'a [u8],
    pub table: &'a [u8; TABLE],
    ghost in_range: { InputsInRange net_exports.now prices.now pairs.now },
    ghost tabled: { PairsTabled pairs.now (pair_count pairs.now) table.now },
}

// An arc of the residual network: its pair, and how much it brings.
#[derive(Clone, Copy)]
pub struct Arc {
    pub pair: usize,
    pub amount: u64,
}

impl<'a> Exchanges<'a> {
    // Reaches the zones with export left.
    fn seed_zones(&self, s: &[i64]) -> Labels
        requires { 96 ≤ length s.now }
        ensures { Seeded self.now.net_exports.now s.now result (length self.now.net_exports.now) }
    {
        let mut labels = Labels {
            zones: [Label::UNREACHED; layout::ZONES],
            queue: [0; layout::ZONES],
            count: 0,
            sink: None,
        };
        for z in 0..self.net_exports.len() {
            let amount = export_left(self.net_exports, s, z);
            if 0 < amount {
                let label = Label {
                    amount,
                    ..Label::UNREACHED
                };
                labels.reach(z, label);
            }
        }
        labels
    }

    // The pair from zone u to zone w.
    fn pair_from(&self, u: usize, w: usize) -> Option<usize>
        requires { (u < length self.now.prices.now) × (w < length self.now.prices.now) }
        ensures { PairFrom self.now.pairs.now u w result }
    {
        pair_of(self.table, u, w)
    }

    // The same, if it counts.
    fn pair_on(&self, u: usize, w: usize) -> Option<usize>
        requires { (u < length self.now.prices.now) × (w < length self.now.prices.now) }
        ensures { PairOn self.now.prices.now self.now.pairs.now u w result }
    {
        if !counts(self.prices, u, w) {
            return None;
        }
        self.pair_from(u, w)
    }

    // The arc from zone u to zone w, where w is not reached yet: along a pair that counts, or back along one that
    // carries something.
    fn try_arc(&self, s: &[i64], zones: &[Label; layout::ZONES], u: usize, w: usize) -> Option<Arc>
        requires u_in_bounds { (u < length self.now.prices.now) × (w < length self.now.prices.now) }
        requires in_bounds { 96 ≤ length s.now }
        requires reached { 0 < (get_or zones.now u unreached).amount }
        ensures { Tried self.now.prices.now self.now.pairs.now s.now zones.now u w result }
    {
        if zones[w].amount != 0 {
            return None;
        }
        let brought = zones[u].amount;
        if let Some(pair) = self.pair_on(u, w) {
            return Some(Arc {
                pair,
                amount: brought,
            });
        }
        let pair = self.pair_from(w, u)?;
        let amount = brought.min(amount(s, pair));
        if amount == 0 {
            return None;
        }
        Some(Arc { pair, amount })
    }

    // Reaches zone after zone, going on from each in the order of the queue, until one has import left: the sink.
    // The labels are stored in place, because a function that returned them would copy them for every zone.
    pub fn search(&self, s: &[i64]) -> Labels
        requires { 96 ≤ length s.now }
        ensures { SearchAnswer self.now.net_exports.now self.now.prices.now self.now.pairs.now s.now result }
    {
        let mut labels = self.seed_zones(s);
        let mut h = 0;
        // Not a for: the queue grows while it is gone over.
        while h < labels.count {
            let u = usize::from(labels.queue[h]);
            for w in 0..self.net_exports.len() {
                if let Some(arc) = self.try_arc(s, &labels.zones, u, w) {
                    let label = Label {
                        amount: arc.amount,
                        depth: labels.count as u8,
                        via: arc.pair as u8,
                    };
                    labels.reach(w, label);
                    if 0 < import_left(self.net_exports, s, w) {
                        labels.sink = Some(w);
                        return labels;
                    }
                }
            }
            h += 1;
        }
        labels
    }
}
