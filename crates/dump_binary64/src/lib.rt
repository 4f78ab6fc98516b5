// Values of a solver's dump (S-5): binary64 by its 64 bits, one product of two, and a product taken to a whole number.
#![tactic(auto)]

ghost use Rattle.std.specs.Prelude.{◌≡◌, ◌<◌, ◌≤◌, true, false, T, pos};
ghost use Rattle.std.specs.Float.Ieee as Ieee;
ghost use Rattle.std.specs.Float.{binary64};
ghost use Rattle.dump_binary64.specs.Meaning.Value.{finite, cut, nearest};
ghost use Rattle.dump_binary64.specs.Meaning.Answer.{whole_below, whole_up_to};
ghost use Rattle.dump_binary64.specs.Meaning.Machine.{zero64, one64, times};
ghost use Rattle.dump_binary64.specs.Steps.Cutting.{Ranged};

// The exponent field when all its bits are ones.
const NOT_FINITE: u64 = 0x7ff0_0000_0000_0000;

const SIGN: u64 = 0x8000_0000_0000_0000;

// Up to here binary64 holds every whole number and a half exactly.
const HALVES_END: f64 = 2251799813685248.0;

// From here on every value is a whole number.
const WHOLES: f64 = 4503599627370496.0;

// The greatest number of 32 bits, and the value after it.
const WORD_MOST: f64 = 4294967295.0;

const WORD_END: f64 = 4294967296.0;

// Neither an infinity nor a NaN.
pub fn is_finite(bits: u64) -> bool
    ensures { result ≡ finite bits }
{
    bits % SIGN < NOT_FINITE
}

pub fn value(bits: u64) -> f64
    requires { finite bits ≡ true }
    ensures { result ≡ Ieee.of_bits binary64 bits }
{
    f64::from_bits(bits)
}

// The whole part of a value below the greatest number of 32 bits. The sum rounds the value to a whole number, which
// is the whole part or one more; the difference and the cast are exact. This takes some five instructions, where
// the library's truncation takes the value's digits apart.
fn whole_part(p: f64) -> u32
    requires t { T (Ieee.le zero64 p) }
    requires ranged { Ranged p }
    requires p_bound { cut p < 4294967295 }
    ensures { result ≡ cut p }
{
    let nearest = (p + WHOLES) - WHOLES;
    let whole = nearest as u32;
    if nearest <= p { whole } else { whole - 1 }
}

// A share of a whole: one product, cut to a whole number.
pub fn part_of(share: f64, whole: u32) -> u32
    requires t { T (Ieee.le zero64 share) }
    requires t_2 { T (Ieee.le share one64) }
    requires whole_bound { whole ≤ 100000 }
    ensures { (result ≡ cut (times share whole)) × (result ≤ whole) }
{
    let p = share * (whole as f64);
    whole_part(p)
}

// A product that is not negative, cut to a whole number, if that has 32 bits.
pub fn cut_to_word(p: f64) -> Option<u32>
    requires { T (Ieee.le zero64 p) }
    ensures { result ≡ whole_below p }
{
    if p < WORD_MOST {
        Some(whole_part(p))
    } else if p < WORD_END {
        Some(u32::MAX)
    } else {
        None
    }
}

// The nearest whole number, a half up.
fn nearest_whole(p: f64) -> u64
    requires t { T (Ieee.le zero64 p) }
    requires t_2 { T (Ieee.le p (Ieee.fin false 1 (pos 51))) }
    ensures { result ≡ nearest p }
{
    let w = std::num::truncating_f64_to_u64(p);
    if p >= (w as f64) + 0.5 { w + 1 } else { w }
}

// A product that is not negative, taken to the nearest whole number, if that is at most `most`.
pub fn nearest_up_to(p: f64, most: u32) -> Option<u32>
    requires { T (Ieee.le zero64 p) }
    ensures { result ≡ whole_up_to p most }
{
    if p <= HALVES_END {
        let n = nearest_whole(p);
        if n <= u64::from(most) {
            return Some(n as u32);
        }
    }
    None
}
