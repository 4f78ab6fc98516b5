// Net positions lent by the host (request S-3), tested by their limits, and their sum. Export is positive.
#![tactic(auto)]

ghost use Rattle.std.specs.Prelude.{◌≡◌, false, ℕ, ◌≤◌, ◌<◌, length};
ghost use Rattle.base_integers.specs.Meaning.Sums.{sum_to};
ghost use Rattle.base_limits.specs.Meaning.Limits as limits;
ghost use Rattle.base_measures.specs.Meaning.Held.{tenths_in};
ghost use Rattle.base_causes.specs.Meaning.Causes.{first_below};
ghost use Rattle.base_causes.specs.Meaning.Place.{place_of};
ghost use Rattle.flow_positions.specs.Meaning.Positions.{position_at, position_outside, unbalanced};

use base_measures::{Measure, Raw, Tenths};

// The position of a zone, within its limits.
fn position(net_exports: &[i64], zone: usize) -> Option<Tenths>
    requires { zone < length net_exports.now }
    ensures { result ≡ tenths_in limits.net_position (position_at net_exports.now zone) }
{
    Tenths::lent_position(Raw::from(net_exports[zone]))
}

fn position_outside(net_exports: &[i64], zone: usize) -> bool
    requires { zone < length net_exports.now }
    ensures { result ≡ position_outside net_exports.now zone }
{
    position(net_exports, zone).is_none()
}

// The first zone whose position is out of range.
pub fn first_position_outside(net_exports: &[i64]) -> Option<usize>
    ensures { place_of result ≡ first_below (length net_exports.now) (position_outside net_exports.now) }
{
    for zone in 0..net_exports.len() {
        if position_outside(net_exports, zone) {
            return Some(zone);
        }
    }
    None
}

// A position within its limits.
fn position_held(net_exports: &[i64], zone: usize) -> Tenths
    requires zone_in_bounds { zone < length net_exports.now }
    requires zone_value { position_outside net_exports.now zone ≡ false }
    ensures { result.0 ≡ position_at net_exports.now zone }
{
    position(net_exports, zone).unwrap_or(Tenths::ZERO)
}

// The sum of up to 16 positions within their limits.
fn position_sum(net_exports: &[i64]) -> Tenths
    requires { (length net_exports.now ≤ 16) × ((z : ℕ) → z < length net_exports.now → position_outside net_exports.now z ≡ false) }
    ensures { result.0 ≡ sum_to (length net_exports.now) (position_at net_exports.now) }
{
    let mut sum = Tenths::ZERO;
    for zone in 0..net_exports.len() {
        sum = sum.plus(position_held(net_exports, zone));
    }
    sum
}

// Whether the sum is not zero.
pub fn is_unbalanced(net_exports: &[i64]) -> bool
    requires { (length net_exports.now ≤ 16) × ((z : ℕ) → z < length net_exports.now → position_outside net_exports.now z ≡ false) }
    ensures { result ≡ unbalanced net_exports.now }
{
    !position_sum(net_exports).is_zero()
}
