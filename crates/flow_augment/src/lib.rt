// An augmenting path (request S-3): brings d more to a zone with import left, back along the pairs that a search
// recorded, from a zone with export left.
#![tactic(auto)]

ghost use Rattle.std.specs.Prelude.{◌≡◌, ◌+◌, ◌*◌, ◌≤◌, ◌<◌, length};
ghost use Rattle.flow_pairs.specs.Meaning.Pairs.{second_zone};
ghost use Rattle.flow_scratch.specs.Meaning.Places.{amount_at};
ghost use Rattle.flow_augment.specs.Meaning.Path.{trail_of, labelled, SomeAugment, Augmented};
ghost use Rattle.flow_augment.specs.Steps.Path.{Shifted, SomePath, Walked};

use flow_pairs::zone_at;
use flow_scratch::{EXPORT_USED, IMPORT_USED, amount, store};

// What a search knows of a zone.
#[derive(Clone, Copy)]
pub struct Label {
    // How much more can be brought to the zone; 0: it is not reached. No Option: it is an amount, and nothing can be
    // brought there.
    pub amount: u64,
    // It falls along the path back, to 0 at a zone with export left.
    pub depth: u8,
    // The pair by which the zone was reached.
    pub via: u8,
}

// What a search knows of the sixteen zones, and the order in which it reached them.
#[derive(Clone, Copy)]
pub struct Labels {
    pub zones: [Label; 16],
    // The zones reached, first come first, and how many they are: fixed memory, so no Vec.
    pub queue: [u8; 16],
    pub count: usize,
    // A zone that is reached and has import left.
    pub sink: Option<usize>,
}

impl Label {
    pub const UNREACHED: Label = Label {
        amount: 0,
        depth: 0,
        via: 0,
    };
}

impl Labels {
    // Reaches a zone, the next in the order.
    pub fn reach(&mut self, zone: usize, label: Label)
        requires { (zone < 16) × (self.old.count < 16) }
        ensures { self.new ≡ labelled self.old zone label }
    {
        self.zones[zone] = label;
        self.queue[self.count] = zone as u8;
        self.count += 1;
    }
}

// Zone z lacks d: pair k supplies it, and its other zone lacks d instead. Flow back along a used pair reduces its
// flow.
fn shift(pairs: &[u8], s: &mut [i64], k: usize, z: usize, d: u64) -> usize
    requires k_in_bounds { (2 * k + 1 < length pairs.now) × (k < 64) }
    requires in_bounds { 96 ≤ length s.old }
    requires d_bound { amount_at s.old k + d < 9223372036854775808 }
    requires d_bound_2 { (second_zone pairs.now k ≡ z → ⊥) → d ≤ amount_at s.old k }
    ensures { Shifted pairs.now s.old s.new k z d result }
{
    let first = zone_at(pairs, 2 * k);
    let second = zone_at(pairs, 2 * k + 1);
    let flow = amount(s, k);
    if second == z {
        store(s, k, flow + d);
        first
    } else {
        store(s, k, flow - d);
        second
    }
}

// From a zone that lacks d back along its path, to a zone with export left. No `for`: it follows a path, not places in
// order.
fn walk_back(pairs: &[u8], s: &mut [i64], labels: Labels, t: usize, d: u64) -> usize
    requires { SomePath pairs.now s.old (trail_of labels) d t }
    ensures { Walked pairs.now s.old s.new (trail_of labels) d t result }
{
    let mut z = t;
    while 0 < labels.zones[z].depth {
        let k = usize::from(labels.zones[z].via);
        z = shift(pairs, s, k, z, d);
    }
    z
}

// Brings d more to zone t, from a zone with export left.
pub fn augment(pairs: &[u8], s: &mut [i64], labels: Labels, t: usize, d: u64)
    requires { SomeAugment pairs.now s.old (trail_of labels) d t }
    ensures { Augmented pairs.now s.old s.new (trail_of labels) d t }
{
    let import_used = amount(s, IMPORT_USED + t);
    store(s, IMPORT_USED + t, import_used + d);
    let z = walk_back(pairs, s, labels, t, d);
    let export_used = amount(s, EXPORT_USED + z);
    store(s, EXPORT_USED + z, export_used + d);
}
