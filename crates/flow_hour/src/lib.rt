// Whether an hour is intuitive (requests S-3 and S-13): the hour is judged and, if it is accepted, the question is
// asked of its zone prices and its net positions with their sign turned.
#![tactic(auto)]

ghost use Rattle.std.specs.Prelude.{◌≡◌, ◌≤◌, pos, ◌-ℤ◌};
ghost use Rattle.std.specs.Int.{w64};
ghost use Rattle.std.proofs.Common.{to_z};
ghost use Rattle.base_measures.specs.Meaning.TenthsHold.{tenths_at};
ghost use Rattle.report_file.specs.Meaning.Prices.{grains_at};
ghost use Rattle.flow_hour.specs.Meaning.Hour.{HourAnswer};
ghost use Rattle.flow_hour.specs.Steps.Lent.{FitsTo, Lists};

use base_integers::Bits;
use base_measures::{Grains, Measure, Tenths};
use flow_intuitive::{Carried, intuitive_of};
use judge_stages::find;

// The number of 64 bits in two's complement, for a lent list of numbers.
fn lent(x: Bits) -> i64
    ensures { result ≡ to_z w64 x.0 }
{
    x.0.cast_signed()
}

// The zones' net positions with export positive; ours are import positive.
fn turned(nets: [Tenths; layout::ZONES], zones: usize) -> [i64; layout::ZONES]
    requires zones_bound { zones ≤ 16 }
    requires fits_to { FitsTo (λ z. pos 0 -ℤ tenths_at nets z) zones }
    ensures { Lists (λ z. pos 0 -ℤ tenths_at nets z) zones result }
{
    let mut exports = [0i64; layout::ZONES];
    for (z, net) in nets[..zones].iter().enumerate() {
        exports[z] = lent(Tenths::ZERO.minus(*net).bits());
    }
    exports
}

// The zones' prices as a list of numbers. Not one function with `turned`: they differ in the number that they list,
// not in a type alone.
fn listed(prices: [Grains; layout::ZONES], zones: usize) -> [i64; layout::ZONES]
    requires zones_bound { zones ≤ 16 }
    requires fits_to { FitsTo (λ z. grains_at prices z) zones }
    ensures { Lists (λ z. grains_at prices z) zones result }
{
    let mut list = [0i64; layout::ZONES];
    for (z, price) in prices[..zones].iter().enumerate() {
        list[z] = lent(price.bits());
    }
    list
}

// The judgement's number and index where the hour is not accepted; else the answer for its exports, its prices and
// these pairs. With n numbers of scratch, `SCRATCH` or `SMALL_SCRATCH`.
pub fn hour_intuitive_in(
    case: &[u8],
    proposal: &[u8],
    pairs: &[u8],
    scratch: &mut [i64],
    n: usize,
) -> Carried
    requires { 96 ≤ n }
    ensures { HourAnswer «case».now proposal.now pairs.now n scratch.old result scratch.new }
{
    let valued = match find(case, proposal) {
        Ok(valued) => valued,
        Err(refusal) => return Carried::from(refusal),
    };
    // A valued hour's verdict is 0 or 26.
    if valued.verdict.number != 0 {
        return Carried::from(valued.verdict);
    }
    let zones = valued.hour.case.counts.zones;
    let exports = turned(valued.cleared.nets, zones);
    let list = listed(valued.prices, zones);
    intuitive_of(&exports[..zones], &list[..zones], pairs, scratch, n)
}
