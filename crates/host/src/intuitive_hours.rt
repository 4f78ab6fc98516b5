// Whether all exchanges of an hour can go from a lower or equal price to a higher one (requests S-3 and S-13).
ghost use Rattle.std.specs.Prelude.{◌≡◌, ◌<◌, length, pos, ◌≤ℤ◌};
ghost use Rattle.base_causes.specs.Meaning.Causes.{verdict};
ghost use Rattle.flow_pairs.specs.Meaning.Pairs.{imports_worth, network_of};
ghost use Rattle.flow_network.specs.Meaning.Network.{FeasibleAll, DeficientSet};
ghost use Rattle.flow_intuitive.specs.Meaning.Intuitive.{scratch_room, intuitive_outcome, LargestTotal, intuitive_scratch};
ghost use Rattle.flow_intuitive.specs.Meaning.SmallScratch.{small_room};
ghost use Rattle.flow_hour.specs.Meaning.Hour.{hour_outcome, hour_network, hour_rent, hour_scratch};

use flow_hour::hour_intuitive_in;
use flow_intuitive::{Carried, SCRATCH, SMALL_SCRATCH, intuitive_in};

// Net positions with export positive, zone prices in grains, and ordered pairs of zones, two bytes to a pair. A
// pair counts if its first price is at most its second. A yes (1) has flows along counted pairs that carry every
// export to imports. A no (0) has a set of zones that no counted pair leaves and whose exports exceed its imports.
// The total is the largest that any flows carry. After an answer the scratch's first 324 numbers are zero. A
// refusal, 81 to 85 asked in that order, has 0 and 0 and leaves the scratch unchanged. In a yes, what the zones
// import is worth at least zero at their prices.
#[unsafe(no_mangle)]
pub extern "C" fn lta_intuitive(
    net_exports: &[i64],
    zone_prices: &[i64],
    pairs: &[u8],
    scratch: &mut [i64],
) -> Carried
    ensures outcome { verdict result.number result.index ≡ intuitive_outcome net_exports.now zone_prices.now
        pairs.now scratch_room (length scratch.old) }
    ensures yes { result.number ≡ 0 → result.intuitive ≡ 1 → FeasibleAll
        (network_of net_exports.now zone_prices.now pairs.now) }
    ensures no { result.number ≡ 0 → result.intuitive ≡ 0 → DeficientSet
        (network_of net_exports.now zone_prices.now pairs.now) }
    ensures yes_or_no { result.intuitive < 2 }
    ensures largest { result.number ≡ 0 → LargestTotal (network_of net_exports.now zone_prices.now pairs.now)
        result.total.0 }
    ensures scratch { scratch.new ≡ intuitive_scratch net_exports.now zone_prices.now pairs.now
        scratch_room scratch.old }
    ensures refused { 0 < result.number → (result.intuitive ≡ 0) × (result.total.0 ≡ pos 0) }
    ensures yes_rent { result.number ≡ 0 → result.intuitive ≡ 1 → pos 0 ≤ℤ imports_worth net_exports.now zone_prices.now }
{
    intuitive_in(net_exports, zone_prices, pairs, scratch, SCRATCH)
}

// The same question for an hour. The hour is judged first; if it is not accepted, the answer is the judgement's
// number and index. Else the answer is for its zone prices and its net positions, with their sign turned, since
// document 01 counts import positive. 81, 82 and 83 cannot occur. In a yes, the rent that `lta_judge` reports is at
// least zero.
#[unsafe(no_mangle)]
pub extern "C" fn lta_hour_intuitive(
    case: &[u8],
    proposal: &[u8],
    pairs: &[u8],
    scratch: &mut [i64],
) -> Carried
    ensures outcome { verdict result.number result.index ≡ hour_outcome «case».now proposal.now pairs.now scratch_room
        (length scratch.old) }
    ensures yes { result.number ≡ 0 → result.intuitive ≡ 1 → FeasibleAll (hour_network «case».now proposal.now pairs.now) }
    ensures no { result.number ≡ 0 → result.intuitive ≡ 0 → DeficientSet (hour_network «case».now proposal.now pairs.now) }
    ensures yes_or_no { result.intuitive < 2 }
    ensures largest { result.number ≡ 0 → LargestTotal (hour_network «case».now proposal.now pairs.now) result.total.0 }
    ensures scratch { scratch.new ≡ hour_scratch «case».now proposal.now pairs.now scratch_room
        scratch.old }
    ensures refused { 0 < result.number → (result.intuitive ≡ 0) × (result.total.0 ≡ pos 0) }
    ensures yes_rent { result.number ≡ 0 → result.intuitive ≡ 1 → pos 0 ≤ℤ hour_rent «case».now proposal.now }
{
    hour_intuitive_in(case, proposal, pairs, scratch, SCRATCH)
}

// The same with a smaller scratch of 96 numbers (S-13): one per pair, one per zone for export used, one per zone
// for import used. Fewer are refused by 85; after an answer the first 96 are zero. The yes or no and the total are
// those of `lta_intuitive` on each input that both take. An entry of its own: C calls it by its name.
#[unsafe(no_mangle)]
pub extern "C" fn lta_intuitive_small(
    net_exports: &[i64],
    zone_prices: &[i64],
    pairs: &[u8],
    scratch: &mut [i64],
) -> Carried
    ensures outcome { verdict result.number result.index ≡ intuitive_outcome net_exports.now zone_prices.now
        pairs.now small_room (length scratch.old) }
    ensures yes { result.number ≡ 0 → result.intuitive ≡ 1 → FeasibleAll
        (network_of net_exports.now zone_prices.now pairs.now) }
    ensures no { result.number ≡ 0 → result.intuitive ≡ 0 → DeficientSet
        (network_of net_exports.now zone_prices.now pairs.now) }
    ensures yes_or_no { result.intuitive < 2 }
    ensures largest { result.number ≡ 0 → LargestTotal (network_of net_exports.now zone_prices.now pairs.now)
        result.total.0 }
    ensures scratch { scratch.new ≡ intuitive_scratch net_exports.now zone_prices.now pairs.now
        small_room scratch.old }
    ensures refused { 0 < result.number → (result.intuitive ≡ 0) × (result.total.0 ≡ pos 0) }
    ensures yes_rent { result.number ≡ 0 → result.intuitive ≡ 1 → pos 0 ≤ℤ imports_worth net_exports.now zone_prices.now }
{
    intuitive_in(net_exports, zone_prices, pairs, scratch, SMALL_SCRATCH)
}

// The same question for an hour, with 96 numbers. An entry of its own too.
#[unsafe(no_mangle)]
pub extern "C" fn lta_hour_intuitive_small(
    case: &[u8],
    proposal: &[u8],
    pairs: &[u8],
    scratch: &mut [i64],
) -> Carried
    ensures outcome { verdict result.number result.index ≡ hour_outcome «case».now proposal.now pairs.now small_room
        (length scratch.old) }
    ensures yes { result.number ≡ 0 → result.intuitive ≡ 1 → FeasibleAll (hour_network «case».now proposal.now pairs.now) }
    ensures no { result.number ≡ 0 → result.intuitive ≡ 0 → DeficientSet (hour_network «case».now proposal.now pairs.now) }
    ensures yes_or_no { result.intuitive < 2 }
    ensures largest { result.number ≡ 0 → LargestTotal (hour_network «case».now proposal.now pairs.now) result.total.0 }
    ensures scratch { scratch.new ≡ hour_scratch «case».now proposal.now pairs.now small_room
        scratch.old }
    ensures refused { 0 < result.number → (result.intuitive ≡ 0) × (result.total.0 ≡ pos 0) }
    ensures yes_rent { result.number ≡ 0 → result.intuitive ≡ 1 → pos 0 ≤ℤ hour_rent «case».now proposal.now }
{
    hour_intuitive_in(case, proposal, pairs, scratch, SMALL_SCRATCH)
}
