// Intuitive hours (requests S-3 and S-13): whether an hour's exchanges can all go from a lower or equal price to a
// higher one, and the largest total that can.
#![tactic(auto)]

ghost use Rattle.std.specs.Prelude.{◌≡◌, ◌≤◌, length};
ghost use Rattle.std.proofs.Math.Option.{none};
ghost use Rattle.base_causes.specs.Meaning.Causes.{refusal};
ghost use Rattle.flow_intuitive.specs.Meaning.Intuitive.{intuitive_refusal, IntuitiveAnswer};
ghost use Rattle.flow_intuitive.specs.Meaning.Answers.{ListsPass, refused_as};
ghost use Rattle.flow_intuitive.specs.Steps.Answers.{rest_causes, Examined};

use base_causes::{Outcome, count_outside, refused};
use base_measures::Tenths;
use book_surplus::{PRICES_GREATEST, PRICES_LEAST, first_price_outside};
use flow_max::max_flow;
use flow_pairs::first_bad_pair;
use flow_positions::{first_position_outside, is_unbalanced};

// The number and index of the refusal, with 0 and 0; or 0 and 0, 1 for a yes and 0 for a no, and the largest total
// in tenths. Numbers and no Result: C gets it.
#[repr(C)]
#[derive(Clone, Copy)]
pub struct Carried {
    pub number: u32,
    pub index: u32,
    pub intuitive: u32,
    pub total: Tenths,
}

impl From<Outcome> for Carried {
    ghost from_gives = { λ o r. r ≡ refused_as o };

    fn from(refusal: Outcome) -> Carried {
        Carried {
            number: refusal.number,
            index: refusal.index,
            intuitive: 0,
            total: Tenths::ZERO,
        }
    }
}

// The numbers of scratch that are lent, and those in S-13.
pub const SCRATCH: usize = 324;

pub const SMALL_SCRATCH: usize = 96;

// 84 and 85, for a scratch of `room` numbers of which n are needed.
fn examine_rest(pairs: &[u8], zones: usize, n: usize, room: usize) -> Result<(), Outcome>
    requires { zones ≤ 16 }
    ensures { Examined (refusal (rest_causes zones pairs.now n room)) result }
{
    if let Some(k) = first_bad_pair(pairs, zones) {
        return refused(84, k as u32);
    }
    if room < n {
        return refused(85, 0);
    }
    Ok(())
}

// 81 to 85.
fn examine(
    net_exports: &[i64],
    prices: &[i64],
    pairs: &[u8],
    n: usize,
    room: usize,
) -> Result<(), Outcome>
    ensures { Examined (intuitive_refusal net_exports.now prices.now pairs.now n room) result }
{
    if count_outside(PRICES_LEAST, PRICES_GREATEST, net_exports.len()) {
        return refused(81, 0);
    }
    if prices.len() != net_exports.len() {
        return refused(81, 0);
    }
    if let Some(zone) = first_position_outside(net_exports) {
        return refused(82, zone as u32);
    }
    if is_unbalanced(net_exports) {
        return refused(82, 0);
    }
    if let Some(zone) = first_price_outside(prices) {
        return refused(83, zone as u32);
    }
    examine_rest(pairs, net_exports.len(), n, room)
}

// The answer where no row refuses. A flow takes 96 of the n numbers of scratch.
fn answered(
    net_exports: &[i64],
    prices: &[i64],
    pairs: &[u8],
    scratch: &mut [i64],
    n: usize,
) -> Carried
    requires le_n { 96 ≤ n }
    requires taken { intuitive_refusal net_exports.now prices.now pairs.now n (length scratch.old) ≡ none }
    ensures { IntuitiveAnswer net_exports.now prices.now pairs.now n scratch.old result scratch.new }
{
    let flow = max_flow(net_exports, prices, pairs, scratch, n);
    Carried {
        number: 0,
        index: 0,
        intuitive: u32::from(flow.all),
        total: Tenths::volume(flow.total as u32),
    }
}

// Net positions with export positive, zone prices in grains and pairs of zones, two bytes to a pair; with n numbers
// of scratch, `SCRATCH` or `SMALL_SCRATCH`.
pub fn intuitive_in(
    net_exports: &[i64],
    prices: &[i64],
    pairs: &[u8],
    scratch: &mut [i64],
    n: usize,
) -> Carried
    requires { 96 ≤ n }
    ensures { IntuitiveAnswer net_exports.now prices.now pairs.now n scratch.old result scratch.new }
{
    match examine(net_exports, prices, pairs, n, scratch.len()) {
        Ok(()) => answered(net_exports, prices, pairs, scratch, n),
        Err(refusal) => Carried::from(refusal),
    }
}

// The same for lists that pass 81 to 83, as those of an accepted hour do.
pub fn intuitive_of(
    net_exports: &[i64],
    prices: &[i64],
    pairs: &[u8],
    scratch: &mut [i64],
    n: usize,
) -> Carried
    requires le_n { 96 ≤ n }
    requires lists_pass { ListsPass net_exports.now prices.now }
    ensures { IntuitiveAnswer net_exports.now prices.now pairs.now n scratch.old result scratch.new }
{
    match examine_rest(pairs, net_exports.len(), n, scratch.len()) {
        Ok(()) => answered(net_exports, prices, pairs, scratch, n),
        Err(refusal) => Carried::from(refusal),
    }
}
