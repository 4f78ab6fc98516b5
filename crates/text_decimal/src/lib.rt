// Counts and amounts as decimal text, written into a lent buffer at a position. Each function returns the position
// past its text: a struct of both, lent to each, would keep the position in memory, and an hour's text took an eighth
// to a fifth longer so. No `Display`: what it prints no contract can say, and these fix every byte.
#![tactic(auto)]

ghost use Rattle.std.specs.Prelude.{◌≡◌, ◌+◌, ◌/◌, ◌%◌, ◌^◌, ◌≤◌, ◌<◌, length, pos, nat_abs};
ghost use Rattle.std.specs.Int.Signed.{lt_z};
ghost use Rattle.std.specs.Int.{w64};
ghost use Rattle.std.proofs.Common.{to_z};
ghost use Rattle.text_rules.specs.Meaning.Text.{places, last_digits, count_text, size_text, amount_text};
ghost use Rattle.text_rules.specs.Meaning.Put.{Put};

use base_integers::Bits;

// Every power of ten that 64 bits hold, 10 ^ k at k. Read it at constant indices only: such a read is folded, and
// any other makes the compiler build the whole table first. A table, not `pow`: request S-7 asks for it (DECISIONS 96).
const POWERS: [u64; 20] = [
    1,
    10,
    100,
    1000,
    10000,
    100000,
    1000000,
    10000000,
    100000000,
    1000000000,
    10000000000,
    100000000000,
    1000000000000,
    10000000000000,
    100000000000000,
    1000000000000000,
    10000000000000000,
    100000000000000000,
    1000000000000000000,
    10000000000000000000,
];

// An amount, from units of its last decimal: microcents of a euro have 8, grains 7. A minus sign before a negative
// amount only. The least number has no opposite of its own width, so its size is unsigned.
pub fn put_amount<const DECIMALS: usize>(out: &mut [u8], at: usize, x: Bits) -> usize
    requires decimals_bound { DECIMALS < 20 }
    requires x_in_bounds { at + length (amount_text DECIMALS (to_z w64 x.0)) ≤ length out.old }
    ensures { Put out.old at (amount_text DECIMALS (to_z w64 x.0)) out.new result }
{
    let n = size(x);
    if negative(x) {
        out[at] = b'-';
        return put_size::<DECIMALS>(out, at + 1, n);
    }
    put_size::<DECIMALS>(out, at, n)
}

pub fn put_count(out: &mut [u8], at: usize, n: u64) -> usize
    requires { at + length (count_text n) ≤ length out.old }
    ensures { Put out.old at (count_text n) out.new result }
{
    put_last(out, at, n, count_places(n))
}

// The decimals are known to the compiler: it turns the division into a product.
fn put_size<const DECIMALS: usize>(out: &mut [u8], at: usize, n: u64) -> usize
    requires decimals_bound { DECIMALS < 20 }
    requires n_in_bounds { at + length (size_text DECIMALS n) ≤ length out.old }
    ensures { Put out.old at (size_text DECIMALS n) out.new result }
{
    let whole = whole(n, DECIMALS);
    let point = put_count(out, at, whole);
    out[point] = b'.';
    put_last(out, point + 1, n, DECIMALS)
}

// The last k digits of n, written from the right, two at a time.
fn put_last(out: &mut [u8], at: usize, n: u64, k: usize) -> usize
    requires { at + k ≤ length out.old }
    ensures { Put out.old at (last_digits k n) out.new result }
{
    let hundred = power(2);
    let mut rest = n;
    for pair in 0..k / 2 {
        let two = rest % hundred;
        let i = at + k - 2 * pair - 2;
        out[i + 1] = digit(two);
        out[i] = digit(two / 10);
        rest /= hundred;
    }
    if k % 2 == 1 {
        out[at] = digit(rest);
    }
    at + k
}

// The last digit of n.
fn digit(n: u64) -> u8
    ensures { result ≡ 48 + n % 10 }
{
    b'0' + (n % 10) as u8
}

// How many digits n has: 0 has one.
fn count_places(n: u64) -> usize
    ensures { result ≡ places n }
{
    n.max(1).ilog10() as usize + 1
}

// The whole part of an amount of size n.
fn whole(n: u64, decimals: usize) -> u64
    requires { decimals < 20 }
    ensures { result ≡ n / 10 ^ decimals }
{
    n / power(decimals)
}

fn power(k: usize) -> u64
    requires { k < 20 }
    ensures { result ≡ 10 ^ k }
{
    POWERS[k]
}

fn negative(x: Bits) -> bool
    ensures { result ≡ lt_z (to_z w64 x.0) (pos 0) }
{
    x.0.cast_signed() < 0
}

// How far a number is from zero.
fn size(x: Bits) -> u64
    ensures { result ≡ nat_abs (to_z w64 x.0) }
{
    x.0.cast_signed().unsigned_abs()
}
