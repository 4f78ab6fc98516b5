// Tenths, cents, grains and microcents: four measures that no sum mixes, each with its limits and the constructors
// that refuse outside them. A number of a file enters as a `Raw`; a number to write or print leaves as `Bits`.
// Nothing turns `Bits` into a `Raw` or a measure.
#![tactic(auto)]

ghost use Rattle.std.specs.Prelude.{◌≡◌, refl, ◌+◌, ◌/◌, ◌<◌, ◌^◌, ℤ, pos, ◌+ℤ◌, ◌-ℤ◌, ◌*ℤ◌};
ghost use Rattle.std.specs.Int.Signed.{lt_z};
ghost use Rattle.std.specs.Int.{w64};
ghost use Rattle.std.proofs.Common.{SFits, of_z};
ghost use Rattle.base_integers.specs.Meaning.Ranges.{range, Within};
ghost use Rattle.base_integers.specs.Meaning.Ranges as ranges;
ghost use Rattle.base_integers.specs.Meaning.Order as order;
ghost use Rattle.base_limits.specs.Meaning.Limits as limits;
ghost use Rattle.base_limits.specs.Meaning.Exact.{exactly, Costs};
ghost use Rattle.base_measures.specs.Meaning.Held.{held_by, tenths_in, cents_in, grains_in, microcents_in, ptdf_in, share_in};

use base_integers::Bits;

// A number from a file or a caller, of no measure yet.
#[derive(Clone, Copy)]
pub struct Raw(i64);

// Volume: tenths of a megawatt, which for one hour are tenths of a MWh. The host gets it in this form.
#[repr(C)]
#[derive(Clone, Copy, PartialEq, Eq, PartialOrd, Ord)]
pub struct Tenths(i64);

// Order price, system price, shadow price: cents per MWh.
#[derive(Clone, Copy, PartialEq, Eq, PartialOrd, Ord)]
pub struct Cents(i64);

// Zone price: 100,000 grains are one cent per MWh.
#[derive(Clone, Copy, PartialEq, Eq, PartialOrd, Ord)]
pub struct Grains(i64);

// Money: one tenth times one grain is one microcent. The host gets it in this form.
#[repr(C)]
#[derive(Clone, Copy, PartialEq, Eq, PartialOrd, Ord)]
pub struct Microcents(i64);

// Hundred-thousandths in one, and grains in one cent per MWh.
const PARTS_IN_ONE: i64 = 100000;

// The same for an amount that is never below zero.
const WHOLE_TENTH: u64 = 100000;

// A PTDF, in hundred-thousandths.
#[derive(Clone, Copy, PartialEq, Eq, PartialOrd, Ord)]
pub struct Ptdf(i64);

// The LTA share, in hundred-thousandths: 100,000 means 1.
#[derive(Clone, Copy, PartialEq, Eq, PartialOrd, Ord)]
pub struct Share(i64);

// A volume times hundred-thousandths: what rules 4 and 5 compare.
#[derive(Clone, Copy, PartialEq, Eq, PartialOrd, Ord)]
pub struct Load(i64);

// Money to hundred-thousandths of a microcent, never below zero (S-14). One number would exceed 64 bits, so there
// are two: whole microcents, and parts of one below 100,000.
#[derive(Clone, Copy)]
pub struct ExactMicrocents {
    whole: u64,
    parts: u64,
}

// A MEASURE is a number with a name and limits of its own. By this trait no other crate makes a measure of a number or
// takes the number out. The module is private, so none names the trait; and both functions ask for a key, which none
// can make, so none calls them through `Measure` either.
mod sealed {
    #[derive(Clone, Copy)]
    pub struct Key(pub(crate) ());

    pub trait Number: Copy {
        ghost number: { Self → ℤ };

        ghost of_number: { ℤ → Self };

        fn of_number(x: i64, key: Key) -> Self
            ensures { result ≡ of_number x };

        fn number(self, key: Key) -> i64
            ensures { result ≡ number self };

        ghost number_of: { (x : ℤ) → number (of_number x) ≡ x };
    }
}

use sealed::{Key, Number};

const KEY: Key = Key(());

// Sums of one measure, and its number on the way out.
pub trait Measure: Number {
    fn plus(self, other: Self) -> Self
        requires { SFits w64 (Self.number self +ℤ Self.number other) }
        ensures { Self.number result ≡ Self.number self +ℤ Self.number other }
    {
        Self::of_number(self.number(KEY) + other.number(KEY), KEY)
    }

    fn minus(self, other: Self) -> Self
        requires { SFits w64 (Self.number self -ℤ Self.number other) }
        ensures { Self.number result ≡ Self.number self -ℤ Self.number other }
    {
        Self::of_number(self.number(KEY) - other.number(KEY), KEY)
    }

    // Two's complement. The number fits 64 bits, so none of it is lost.
    fn bits(self) -> Bits
        ensures value { result.0 ≡ of_z w64 (Self.number self) }
        ensures fits { SFits w64 (Self.number self) }
    {
        Bits(self.number(KEY).cast_unsigned())
    }
}

// What the trait asks of each measure. A macro that wrote them would be refused (`rt ci`).
impl Number for Raw {
    ghost number = { λ x. x.0 };

    ghost of_number = { λ x. record { 0 = x } };

    ghost number_of = { λ x. refl };

    fn of_number(x: i64, _key: Key) -> Raw {
        Raw(x)
    }

    fn number(self, _key: Key) -> i64 {
        self.0
    }
}

impl Number for Tenths {
    ghost number = { λ x. x.0 };

    ghost of_number = { λ x. record { 0 = x } };

    ghost number_of = { λ x. refl };

    fn of_number(x: i64, _key: Key) -> Tenths {
        Tenths(x)
    }

    fn number(self, _key: Key) -> i64 {
        self.0
    }
}

impl Number for Cents {
    ghost number = { λ x. x.0 };

    ghost of_number = { λ x. record { 0 = x } };

    ghost number_of = { λ x. refl };

    fn of_number(x: i64, _key: Key) -> Cents {
        Cents(x)
    }

    fn number(self, _key: Key) -> i64 {
        self.0
    }
}

impl Number for Grains {
    ghost number = { λ x. x.0 };

    ghost of_number = { λ x. record { 0 = x } };

    ghost number_of = { λ x. refl };

    fn of_number(x: i64, _key: Key) -> Grains {
        Grains(x)
    }

    fn number(self, _key: Key) -> i64 {
        self.0
    }
}

impl Number for Microcents {
    ghost number = { λ x. x.0 };

    ghost of_number = { λ x. record { 0 = x } };

    ghost number_of = { λ x. refl };

    fn of_number(x: i64, _key: Key) -> Microcents {
        Microcents(x)
    }

    fn number(self, _key: Key) -> i64 {
        self.0
    }
}

impl Number for Ptdf {
    ghost number = { λ x. x.0 };

    ghost of_number = { λ x. record { 0 = x } };

    ghost number_of = { λ x. refl };

    fn of_number(x: i64, _key: Key) -> Ptdf {
        Ptdf(x)
    }

    fn number(self, _key: Key) -> i64 {
        self.0
    }
}

impl Number for Share {
    ghost number = { λ x. x.0 };

    ghost of_number = { λ x. record { 0 = x } };

    ghost number_of = { λ x. refl };

    fn of_number(x: i64, _key: Key) -> Share {
        Share(x)
    }

    fn number(self, _key: Key) -> i64 {
        self.0
    }
}

impl Number for Load {
    ghost number = { λ x. x.0 };

    ghost of_number = { λ x. record { 0 = x } };

    ghost number_of = { λ x. refl };

    fn of_number(x: i64, _key: Key) -> Load {
        Load(x)
    }

    fn number(self, _key: Key) -> i64 {
        self.0
    }
}

impl Measure for Tenths {}

impl Measure for Grains {}

impl Measure for Microcents {}

impl Measure for Load {}

// The one test of every constructor.
#[tactic(auto, unfolding(base_integers::specs::Meaning::Ranges::outside))]
fn outside(least: i64, greatest: i64, x: i64) -> bool
    ensures { result ≡ ranges.outside (range least greatest) x }
{
    x < least || greatest < x
}

// A number as a measure, within limits of its own.
fn held<M: Number>(least: M, greatest: M, x: Raw) -> Option<M>
    ensures { result ≡ held_by (M.of_number x.0) (ranges.outside (range (M.number least) (M.number greatest)) x.0) }
{
    if outside(least.number(KEY), greatest.number(KEY), x.0) {
        return None;
    }
    Some(M::of_number(x.0, KEY))
}

impl Raw {
    // Two's complement. `Measure` has it for the others; a `Raw` has no sums.
    pub fn bits(self) -> Bits
        ensures { result.0 ≡ of_z w64 self.0 }
    {
        Bits(self.0.cast_unsigned())
    }
}

// The number of an unsigned field.
impl From<u32> for Raw {
    ghost from_gives = { λ x r. r.0 ≡ pos x };

    fn from(x: u32) -> Raw {
        Raw(i64::from(x))
    }
}

// The number of a signed field.
impl From<i32> for Raw {
    ghost from_gives = { λ x r. r.0 ≡ x };

    fn from(x: i32) -> Raw {
        Raw(i64::from(x))
    }
}

// A number that the host lends.
impl From<i64> for Raw {
    ghost from_gives = { λ x r. r.0 ≡ x };

    fn from(x: i64) -> Raw {
        Raw(x)
    }
}

impl Tenths {
    pub const ZERO: Tenths = Tenths(0);

    pub const MARGIN_LEAST: Tenths = Tenths(-500000);

    pub const MARGIN_GREATEST: Tenths = Tenths(500000);

    pub const QUANTITY_LEAST: Tenths = Tenths(1);

    pub const QUANTITY_GREATEST: Tenths = Tenths(100000);

    pub const CAPACITY_LEAST: Tenths = Tenths(0);

    pub const CAPACITY_GREATEST: Tenths = Tenths(100000);

    pub const NET_POSITION_LEAST: Tenths = Tenths(-51200000);

    pub const NET_POSITION_GREATEST: Tenths = Tenths(51200000);

    // A constructor for each limit, as document 01 asks: each refuses outside its least and greatest.
    pub fn margin(x: Raw) -> Option<Tenths>
        ensures { result ≡ tenths_in limits.margin x.0 }
    {
        held(Self::MARGIN_LEAST, Self::MARGIN_GREATEST, x)
    }

    pub fn quantity(x: Raw) -> Option<Tenths>
        ensures { result ≡ tenths_in limits.quantity x.0 }
    {
        held(Self::QUANTITY_LEAST, Self::QUANTITY_GREATEST, x)
    }

    pub fn capacity(x: Raw) -> Option<Tenths>
        ensures { result ≡ tenths_in limits.capacity x.0 }
    {
        held(Self::CAPACITY_LEAST, Self::CAPACITY_GREATEST, x)
    }

    // The caller has tested the number by its limits. Each asks for another limit, so they are not one function.
    pub fn of_margin(x: Raw) -> Tenths
        requires { Within limits.margin x.0 }
        ensures { result ≡ record { 0 = x.0 } }
    {
        Self::of_number(x.0, KEY)
    }

    pub fn of_quantity(x: Raw) -> Tenths
        requires { Within limits.quantity x.0 }
        ensures { result ≡ record { 0 = x.0 } }
    {
        Self::of_number(x.0, KEY)
    }

    pub fn of_capacity(x: Raw) -> Tenths
        requires { Within limits.capacity x.0 }
        ensures { result ≡ record { 0 = x.0 } }
    {
        Self::of_number(x.0, KEY)
    }

    // A volume that document 01 limits only by its 32 bits: an accepted volume, a flow, a contracted volume. Its
    // type is its range.
    pub fn volume(x: u32) -> Tenths
        ensures { result.0 ≡ pos x }
    {
        Self::of_number(i64::from(x), KEY)
    }

    // A net position that the host lends (S-3).
    pub fn lent_position(x: Raw) -> Option<Tenths>
        ensures { result ≡ tenths_in limits.net_position x.0 }
    {
        held(Self::NET_POSITION_LEAST, Self::NET_POSITION_GREATEST, x)
    }

    #[tactic(auto, unfolding(base_integers::specs::Meaning::Ranges::is_zero, base_integers::specs::Meaning::Ranges::outside))]
    pub fn is_zero(self) -> bool
        ensures { result ≡ ranges.is_zero self.0 }
    {
        self == Self::ZERO
    }

    // Whether this is a larger fraction of its whole than another volume is of its own. Wholes are positive.
    pub fn greater_part(self, whole: Tenths, other: Tenths, other_whole: Tenths) -> bool
        requires sfits { SFits w64 (other.0 *ℤ whole.0) }
        requires sfits_2 { SFits w64 (self.0 *ℤ other_whole.0) }
        ensures { result ≡ lt_z (other.0 *ℤ whole.0) (self.0 *ℤ other_whole.0) }
    {
        other.0 * whole.0 < self.0 * other_whole.0
    }

    // A volume in hundred-thousandths of a tenth, to compare with a share of another.
    pub fn scaled_by_one(self) -> Load
        requires { SFits w64 (self.0 *ℤ pos limits.parts_in_one) }
        ensures { result.0 ≡ self.0 *ℤ pos limits.parts_in_one }
    {
        Load(self.0 * PARTS_IN_ONE)
    }

    // What a volume costs at a price.
    pub fn cost(self, price: Grains) -> Microcents
        requires { SFits w64 (self.0 *ℤ price.0) }
        ensures { result.0 ≡ self.0 *ℤ price.0 }
    {
        Microcents(self.0 * price.0)
    }
}

impl Cents {
    pub const ORDER_PRICE_LEAST: Cents = Cents(-50000);

    pub const ORDER_PRICE_GREATEST: Cents = Cents(400000);

    pub const SHADOW_PRICE_LEAST: Cents = Cents(0);

    pub const SHADOW_PRICE_GREATEST: Cents = Cents(1000000);

    pub const SYSTEM_PRICE_LEAST: Cents = Cents(-2147483648);

    pub const SYSTEM_PRICE_GREATEST: Cents = Cents(2147483647);

    pub fn order_price(x: Raw) -> Option<Cents>
        ensures { result ≡ cents_in limits.order_price x.0 }
    {
        held(Self::ORDER_PRICE_LEAST, Self::ORDER_PRICE_GREATEST, x)
    }

    pub fn shadow_price(x: Raw) -> Option<Cents>
        ensures { result ≡ cents_in limits.shadow_price x.0 }
    {
        held(Self::SHADOW_PRICE_LEAST, Self::SHADOW_PRICE_GREATEST, x)
    }

    pub fn system_price(x: Raw) -> Option<Cents>
        ensures { result ≡ cents_in limits.system_price x.0 }
    {
        held(Self::SYSTEM_PRICE_LEAST, Self::SYSTEM_PRICE_GREATEST, x)
    }

    // The caller has tested the number by its limits.
    pub fn of_order_price(x: Raw) -> Cents
        requires { Within limits.order_price x.0 }
        ensures { result ≡ record { 0 = x.0 } }
    {
        Self::of_number(x.0, KEY)
    }

    pub fn of_shadow_price(x: Raw) -> Cents
        requires { Within limits.shadow_price x.0 }
        ensures { result ≡ record { 0 = x.0 } }
    {
        Self::of_number(x.0, KEY)
    }

    // A price per MWh in grains.
    pub fn in_grains(self) -> Grains
        requires { SFits w64 (limits.grains_of self.0) }
        ensures { result.0 ≡ limits.grains_of self.0 }
    {
        Grains(PARTS_IN_ONE * self.0)
    }
}

impl Grains {
    pub const ZERO: Grains = Grains(0);

    pub const ZONE_PRICE_LEAST: Grains = Grains(-5000000000);

    pub const ZONE_PRICE_GREATEST: Grains = Grains(40000000000);

    // A computed price as a zone price.
    pub fn zone_price(self) -> Option<Grains>
        ensures { result ≡ grains_in limits.zone_price self.0 }
    {
        held(
            Self::ZONE_PRICE_LEAST,
            Self::ZONE_PRICE_GREATEST,
            Raw(self.0),
        )
    }

    // A zone price that the host lends.
    pub fn lent_price(x: Raw) -> Option<Grains>
        ensures { result ≡ grains_in limits.zone_price x.0 }
    {
        held(Self::ZONE_PRICE_LEAST, Self::ZONE_PRICE_GREATEST, x)
    }
}

impl Microcents {
    pub const ZERO: Microcents = Microcents(0);

    pub const TOLERANCE_LEAST: Microcents = Microcents(0);

    pub const TOLERANCE_GREATEST: Microcents = Microcents(1000000000000000);

    pub const ACCEPTED_TOLERANCE_LEAST: Microcents = Microcents(0);

    pub const ACCEPTED_TOLERANCE_GREATEST: Microcents = Microcents(10000000000);

    // A number of cents as money.
    fn of_cents(cents: Raw) -> Microcents
        requires { SFits w64 (limits.microcents_of cents.0) }
        ensures { result.0 ≡ limits.microcents_of cents.0 }
    {
        Microcents(1000000 * cents.0)
    }

    // The tolerance, which a case has in cents.
    pub fn tolerance(cents: Raw) -> Option<Microcents>
        requires { SFits w64 (limits.microcents_of cents.0) }
        ensures { result ≡ microcents_in limits.tolerance_money (limits.microcents_of cents.0) }
    {
        held(
            Self::TOLERANCE_LEAST,
            Self::TOLERANCE_GREATEST,
            Raw(Self::of_cents(cents).0),
        )
    }

    // A tolerance as that of an hour that may be accepted (S-12).
    pub fn accepted_tolerance(self) -> Option<Microcents>
        ensures { result ≡ microcents_in limits.accepted_tolerance_money self.0 }
    {
        held(
            Self::ACCEPTED_TOLERANCE_LEAST,
            Self::ACCEPTED_TOLERANCE_GREATEST,
            Raw(self.0),
        )
    }

    // The number where above zero, else zero.
    pub fn positive(self) -> Microcents
        ensures { result.0 ≡ order.positive self.0 }
    {
        self.max(Self::ZERO)
    }
}

impl Ptdf {
    pub const LEAST: Ptdf = Ptdf(-200000);

    pub const GREATEST: Ptdf = Ptdf(200000);

    pub fn new(x: Raw) -> Option<Ptdf>
        ensures { result ≡ ptdf_in limits.ptdf x.0 }
    {
        held(Self::LEAST, Self::GREATEST, x)
    }

    // An entry of the PTDF table; the caller has tested it by its limits.
    pub fn of_entry(x: i32) -> Ptdf
        requires { Within limits.ptdf x }
        ensures { result.0 ≡ x }
    {
        Ptdf(i64::from(x))
    }

    // The load of a volume on a branch.
    pub fn load(self, volume: Tenths) -> Load
        requires { SFits w64 (self.0 *ℤ volume.0) }
        ensures { result.0 ≡ self.0 *ℤ volume.0 }
    {
        Load(self.0 * volume.0)
    }

    // What a shadow price adds to a zone's price.
    pub fn price(self, shadow: Cents) -> Grains
        requires { SFits w64 (self.0 *ℤ shadow.0) }
        ensures { result.0 ≡ self.0 *ℤ shadow.0 }
    {
        Grains(self.0 * shadow.0)
    }
}

impl Share {
    pub const WHOLE: Share = Share(PARTS_IN_ONE);

    pub const LEAST: Share = Share(0);

    pub const GREATEST: Share = Share(PARTS_IN_ONE);

    pub fn new(x: Raw) -> Option<Share>
        ensures { result ≡ share_in limits.share x.0 }
    {
        held(Self::LEAST, Self::GREATEST, x)
    }

    pub fn flow_based(self) -> Share
        requires { SFits w64 (pos limits.parts_in_one -ℤ self.0) }
        ensures { result.0 ≡ pos limits.parts_in_one -ℤ self.0 }
    {
        Share(Self::WHOLE.0 - self.0)
    }

    // Above zero: the clearing uses the LTA domain.
    pub fn is_above_zero(self) -> bool
        ensures { result ≡ lt_z (pos 0) self.0 }
    {
        Self::LEAST < self
    }

    // This share of a volume.
    pub fn of_volume(self, whole: Tenths) -> Load
        requires { SFits w64 (self.0 *ℤ whole.0) }
        ensures { result.0 ≡ self.0 *ℤ whole.0 }
    {
        Load(self.0 * whole.0)
    }
}

impl Load {
    pub const ZERO: Load = Load(0);

    // What a load costs at a price (S-14): its whole tenths and its rest, each at the price.
    pub fn cost(self, price: Grains) -> ExactMicrocents
        requires { Costs self.0 price.0 }
        ensures parts_value { pos (exactly result.whole result.parts) ≡ self.0 *ℤ price.0 }
        ensures parts_lt_parts_in_one { result.parts < limits.parts_in_one }
    {
        let load = self.0 as u64;
        let at = price.0 as u64;
        ExactMicrocents::carried(load / WHOLE_TENTH * at, load % WHOLE_TENTH * at)
    }
}

impl ExactMicrocents {
    // Carries whole microcents over: `parts` may be 100,000 or more.
    fn carried(whole: u64, parts: u64) -> ExactMicrocents
        requires { whole + parts / limits.parts_in_one < 2 ^ 64 }
        ensures parts_value { exactly result.whole result.parts ≡ exactly whole parts }
        ensures parts_lt_parts_in_one { result.parts < limits.parts_in_one }
    {
        ExactMicrocents {
            whole: whole + parts / WHOLE_TENTH,
            parts: parts % WHOLE_TENTH,
        }
    }

    // The whole microcents.
    pub fn whole(self) -> Bits
        ensures { result.0 ≡ self.whole }
    {
        Bits(self.whole)
    }

    // The hundred-thousandths of a microcent besides.
    pub fn parts(self) -> Bits
        ensures { result.0 ≡ self.parts }
    {
        Bits(self.parts)
    }
}
