// Ordered pairs of zones lent as bytes (request S-3): the first zone and the second of each, and the first pair
// that row 84 refuses.
#![tactic(auto)]

ghost use Rattle.std.specs.Prelude.{◌≡◌, ◌+◌, ◌*◌, ◌≤◌, ◌<◌, length, get_or, SomeIff};
ghost use Rattle.base_causes.specs.Meaning.Causes.{first_below};
ghost use Rattle.base_causes.specs.Meaning.Place.{place_of};
ghost use Rattle.base_zone_set.specs.Steps.Pairs.{Seen};
ghost use Rattle.flow_pairs.specs.Meaning.Table.{Distinct, pair_in, PairsTabled};
ghost use Rattle.flow_pairs.specs.Steps.Tests.{PairValid};
ghost use Rattle.flow_pairs.specs.Meaning.Pairs.{pair_count, first_zone, second_zone, bad_pair};

use base_zone_set::ZoneSet;

// No zone's number: the second zone of a last byte alone. Not an Option: the one test that a zone is known refuses
// both.
const NO_ZONE: usize = layout::ZONES;

// The most pairs that are taken.
const PAIRS_GREATEST: usize = layout::LINKS;

pub fn pair_count(pairs: &[u8]) -> usize
    ensures { result ≡ pair_count pairs.now }
{
    pairs.len() / 2 + pairs.len() % 2
}

// A byte of a pair as a zone.
pub fn zone_at(pairs: &[u8], i: usize) -> usize
    requires { i < length pairs.now }
    ensures { result ≡ get_or pairs.now i 16 }
{
    usize::from(pairs[i])
}

fn zone_or_none(pairs: &[u8], i: usize) -> usize
    ensures { result ≡ get_or pairs.now i 16 }
{
    if i < pairs.len() {
        zone_at(pairs, i)
    } else {
        NO_ZONE
    }
}

// The first zone and the second of pair k.
fn zones_of(pairs: &[u8], k: usize) -> (usize, usize)
    requires { 2 * k + 1 < 18446744073709551616 }
    ensures first { result.0 ≡ first_zone pairs.now k }
    ensures second { result.1 ≡ second_zone pairs.now k }
{
    (zone_or_none(pairs, 2 * k), zone_or_none(pairs, 2 * k + 1))
}

// Whether row 84 refuses pair k. `seen` has for each zone the second zones of the earlier pairs that begin there.
#[tactic(auto, unfolding(crate::specs::Meaning::Pairs::bad_pair))]
fn bad_pair(pairs: &[u8], zones: usize, seen: &[ZoneSet; layout::ZONES], k: usize) -> bool
    requires zones_bound { zones ≤ 16 }
    requires seen { Seen (first_zone pairs.now) (second_zone pairs.now) k seen.now }
    ensures { result ≡ bad_pair zones pairs.now k }
{
    if PAIRS_GREATEST <= k {
        return true;
    }
    let (first, second) = zones_of(pairs, k);
    if zones <= first || zones <= second || first == second {
        return true;
    }
    seen[first].has(second)
}

// Adds pair k to `seen`.
fn see_pair(pairs: &[u8], seen: &mut [ZoneSet; layout::ZONES], k: usize)
    requires pair_valid { PairValid 16 pairs.now k }
    requires seen { Seen (first_zone pairs.now) (second_zone pairs.now) k seen.old }
    ensures { Seen (first_zone pairs.now) (second_zone pairs.now) (k + 1) seen.new }
{
    let (first, second) = zones_of(pairs, k);
    seen[first] = seen[first].with(second);
}

// The first pair that row 84 refuses.
pub fn first_bad_pair(pairs: &[u8], zones: usize) -> Option<usize>
    requires { zones ≤ 16 }
    ensures { place_of result ≡ first_below (pair_count pairs.now) (bad_pair zones pairs.now) }
{
    let mut seen = [ZoneSet::EMPTY; layout::ZONES];
    for k in 0..pair_count(pairs) {
        if bad_pair(pairs, zones, &seen, k) {
            return Some(k);
        }
        see_pair(pairs, &mut seen, k);
    }
    None
}

// In a table, that there is no pair. No Option there: `pair_in` and `PairsTabled` speak of a number below 64, and
// `pair_of` answers an Option.
const NO_PAIR: u8 = 64;

// For two zones, at 16 times the first plus the second, the pair that leads from the first to the second.
pub const TABLE: usize = layout::ZONES * layout::ZONES;

pub fn pair_table(pairs: &[u8]) -> [u8; TABLE]
    requires { Distinct pairs.now }
    ensures { PairsTabled pairs.now (pair_count pairs.now) result }
{
    let mut table = [NO_PAIR; TABLE];
    for k in 0..pair_count(pairs) {
        let first = zone_at(pairs, 2 * k);
        let second = zone_at(pairs, 2 * k + 1);
        table[layout::ZONES * first + second] = k as u8;
    }
    table
}

// The number that a table has for two zones.
pub fn pair_at(table: &[u8; TABLE], a: usize, b: usize) -> usize
    requires { (a < 16) × (b < 16) }
    ensures { result ≡ pair_in table.now a b }
{
    usize::from(table[layout::ZONES * a + b])
}

// The pair that a table has for two zones.
pub fn pair_of(table: &[u8; TABLE], a: usize, b: usize) -> Option<usize>
    requires { (a < 16) × (b < 16) }
    ensures { SomeIff result (pair_in table.now a b < 64) (pair_in table.now a b) }
{
    let pair = pair_at(table, a, b);
    if pair < usize::from(NO_PAIR) {
        Some(pair)
    } else {
        None
    }
}
