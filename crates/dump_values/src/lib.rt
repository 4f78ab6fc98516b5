// What each value of a solver's dump becomes (S-5): the field of the proposal at its place, or that it does not
// fit.
#![tactic(auto)]

ghost use Rattle.std.specs.Prelude.{◌≡◌, true, ◌+◌, ◌≤◌, ◌<◌, T};
ghost use Rattle.std.specs.Float.Ieee.Scale as float;
ghost use Rattle.dump_binary64.specs.Meaning.Value.{finite};
ghost use Rattle.dump_values.specs.Meaning.Answer.{field_of};
ghost use Rattle.dump_values.specs.Meaning.Fields.{share_field, system_field, opening_fields};
ghost use Rattle.dump_values.specs.Steps.Fields.{flow_field, shadow_field};
ghost use Rattle.dump_values.specs.Meaning.Field.{after_opening};

use base_integers::Bits;
use base_measures::{Cents, Measure, Raw};
use case_header::ReadableCase;
use case_orders::order_at;
use dump_binary64::{cut_to_word, nearest_up_to, part_of, value};

// The dump's opening: the LTA share and the system price. Two f64 and no type parameter, as document 01 names it.
#[derive(Clone, Copy)]
pub struct DumpOpening {
    pub share: f64,
    pub system: f64,
}

// What the opening's values become.
#[derive(Clone, Copy)]
pub struct OpeningFields<T> {
    pub share: T,
    pub system: T,
}

// A share of one, in hundred-thousandths.
const PARTS_IN_ONE: u32 = 100000;

// MW in tenths, and euros in cents.
const TENTHS: f64 = 10.0;

const CENTS: f64 = 100.0;

// The greatest system price and the size of the least one, in cents.
const SYSTEM_GREATEST: u32 = i32::MAX as u32;

const SYSTEM_LEAST: u32 = SYSTEM_GREATEST + 1;

// A share from 0 to 1 of a whole.
fn share_of(x: f64, whole: u32) -> Option<Bits>
    requires { whole ≤ 100000 }
    ensures { result ≡ share_field x whole }
{
    if x >= 0.0 && x <= 1.0 {
        Some(Bits(u64::from(part_of(x, whole))))
    } else {
        None
    }
}

fn flow(x: f64) -> Option<Bits>
    requires { T (float.finite x) }
    ensures { result ≡ flow_field x }
{
    if x >= 0.0 {
        let n = cut_to_word(x * TENTHS)?;
        Some(Bits(u64::from(n)))
    } else {
        None
    }
}

fn shadow_price(x: f64) -> Option<Bits>
    requires { T (float.finite x) }
    ensures { result ≡ shadow_field x }
{
    if x >= 0.0 {
        let n = nearest_up_to(x * CENTS, u32::MAX)?;
        Cents::shadow_price(Raw::from(n))?;
        Some(Bits(u64::from(n)))
    } else {
        None
    }
}

// Any 32 signed bits are a system price.
fn system_price(x: f64) -> Option<Bits>
    requires { T (float.finite x) }
    ensures { result ≡ system_field x }
{
    let p = x * CENTS;
    if p >= 0.0 {
        let n = nearest_up_to(p, SYSTEM_GREATEST)?;
        Some(Bits(u64::from(n)))
    } else {
        let n = nearest_up_to(-p, SYSTEM_LEAST)?;
        Some(Bits((-i64::from(n)).cast_unsigned()))
    }
}

pub fn opening_fields(o: DumpOpening) -> OpeningFields<Option<Bits>>
    requires t { T (float.finite o.share) }
    requires t_2 { T (float.finite o.system) }
    ensures { result ≡ opening_fields o }
{
    OpeningFields {
        share: share_of(o.share, PARTS_IN_ONE),
        system: system_price(o.system),
    }
}

// The field of value i after the opening: the orders' shares, then the links' flows, then the branches' shadow
// prices.
pub fn field_of(case: ReadableCase<'_>, i: usize, bits: u64) -> Option<Bits>
    requires i_bound { i < «case».counts.orders + «case».counts.links + «case».counts.branches }
    requires bits_value { finite bits ≡ true }
    ensures { result ≡ field_of (after_opening «case».entry.bytes.now i) bits }
{
    let x = value(bits);
    let orders = case.counts.orders;
    if i < orders {
        let quantity = order_at(case, i).quantity.bits();
        share_of(x, quantity.0 as u32)
    } else if i < orders + case.counts.links {
        flow(x)
    } else {
        shadow_price(x)
    }
}
