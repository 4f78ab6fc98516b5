// An order book lent in memory, with its zone prices in grains. The rows go one by one into the book's state, which
// at the end gives the sum of rule 8 or a refusal.
#![tactic(auto)]

ghost use Rattle.std.specs.Prelude.{◌≡◌, ◌+◌, ◌^◌, ◌<◌, length, ◌+ℤ◌};
ghost use Rattle.std.specs.Int.{w64};
ghost use Rattle.std.proofs.Common.{SFits};
ghost use Rattle.base_integers.specs.Meaning.Ranges as ranges;
ghost use Rattle.base_limits.specs.Meaning.Limits as limits;
ghost use Rattle.base_measures.specs.Meaning.Held.{grains_in};
ghost use Rattle.book_order.specs.Meaning.Answer.{admitted};
ghost use Rattle.base_causes.specs.Meaning.Place.{place_of};
ghost use Rattle.book_surplus.specs.Meaning.BookState.{new_state, is_open, asks_row, refused_row, with_row, total_of, first_price_outside, priced, open_of, add_of, answer_of, close_of, counted, Ready};
ghost use Rattle.book_surplus.specs.Steps.BookState.{OrderIn};

use base_causes::{Outcome, count_outside, refused};
use base_measures::{Grains, Measure, Microcents, Raw};
use book_order::{Order, admit, surplus};

// A row as the host lends it. Side 0 buys, 1 sells; the quantity is in tenths, the price in cents. The C interface
// has these numbers.
#[repr(C)]
#[derive(Clone, Copy)]
pub struct OrderRow {
    pub zone: u8,
    pub side: u8,
    pub quantity: u32,
    pub price: i32,
}

// The answer: number and index as in the verdict table, and the sum in microcents, which is 0 for a refusal. The C
// interface has it in this form; code here has a `Result`.
#[repr(C)]
#[derive(Clone, Copy)]
pub struct Surplus {
    pub number: u32,
    pub index: u32,
    pub sum: Microcents,
}

// The state after some rows: the refusal so far, if there is one; how many rows were taken; and their sum. The number
// 25 stands until a row is refused.
#[derive(Clone, Copy)]
pub struct BookState {
    refusal: Result<(), Outcome>,
    taken: u32,
    sum: Microcents,
}

impl BookState {
    fn new(refusal: Result<(), Outcome>) -> BookState
        ensures { result ≡ new_state refusal }
    {
        BookState {
            refusal,
            taken: 0,
            sum: Microcents::ZERO,
        }
    }

    // A row may still change it: it is refused by neither 4 nor 8.
    fn is_open(self) -> bool
        ensures { result ≡ is_open self }
    {
        let Err(refusal) = self.refusal else {
            return true;
        };
        refusal.number == 25
    }

    // Whether to read row `i` of `count`.
    pub fn asks_row(self, i: usize, count: usize) -> bool
        ensures { result ≡ asks_row self i count }
    {
        if self.is_open() {
            return i < count;
        }
        false
    }

    // Refused at the row after those taken.
    fn refuse_row(self) -> BookState
        ensures { result ≡ refused_row self }
    {
        BookState {
            refusal: refused(8, self.taken),
            ..self
        }
    }

    fn take_row(self, surplus: Microcents) -> BookState
        requires taken_bound { self.taken < 512 }
        requires sfits { SFits w64 (self.sum.0 +ℤ surplus.0) }
        ensures { result ≡ with_row self surplus.0 }
    {
        BookState {
            taken: self.taken + 1,
            sum: self.sum.plus(surplus),
            ..self
        }
    }

    // Rule 8's sum after the last row, if nothing is refused.
    fn total(self) -> Result<Microcents, Outcome>
        ensures { result ≡ total_of self }
    {
        self.refusal?;
        Ok(self.sum)
    }
}

// How many prices and rows there may be.
pub const PRICES_LEAST: usize = 1;

pub const PRICES_GREATEST: usize = layout::ZONES;

pub const ROWS_LEAST: usize = 0;

pub const ROWS_GREATEST: usize = layout::ORDERS;

// A zone's price, within its limits.
fn zone_price(price: i64) -> Option<Grains>
    ensures { result ≡ grains_in limits.zone_price price }
{
    Grains::lent_price(Raw::from(price))
}

fn price_outside(price: i64) -> bool
    ensures { result ≡ ranges.outside limits.zone_price price }
{
    zone_price(price).is_none()
}

// The first zone whose price is out of range.
pub fn first_price_outside(prices: &[i64]) -> Option<usize>
    ensures { place_of result ≡ first_price_outside prices.now }
{
    prices.iter().position(|price| price_outside(*price))
}

// What at most 16 prices are refused by.
fn judge_prices(prices: &[i64]) -> Result<(), Outcome>
    requires { length prices.now < 2 ^ 32 }
    ensures { result ≡ priced (first_price_outside prices.now) }
{
    let Some(zone) = first_price_outside(prices) else {
        return Ok(());
    };
    refused(25, zone as u32)
}

// The state of the book before the first row of `count`.
pub fn open_book(count: usize, prices: &[i64]) -> BookState
    ensures { result ≡ open_of count prices.now }
{
    if count_outside(PRICES_LEAST, PRICES_GREATEST, prices.len()) {
        return BookState::new(refused(4, 5));
    }
    if count_outside(ROWS_LEAST, ROWS_GREATEST, count) {
        return BookState::new(refused(4, 8));
    }
    BookState::new(judge_prices(prices))
}

fn admit_row(zones: usize, row: OrderRow) -> Option<Order>
    ensures { result ≡ admitted zones row.zone row.side row.quantity row.price }
{
    admit(
        zones,
        usize::from(row.zone),
        row.side,
        row.quantity,
        Raw::from(row.price),
    )
}

// Rule 8 for one order, or zero where its zone's price is out of range; the book is refused then.
fn order_surplus(order: Order, prices: &[i64]) -> Microcents
    requires { OrderIn (length prices.now) order }
    ensures { result.0 ≡ counted order prices.now }
{
    let Some(price) = zone_price(prices[order.zone]) else {
        return Microcents::ZERO;
    };
    surplus(order, price)
}

// The state with one row more.
pub fn add_row(state: BookState, row: OrderRow, prices: &[i64]) -> BookState
    requires { Ready state }
    ensures { result ≡ add_of state row prices.now }
{
    let Some(order) = admit_row(prices.len(), row) else {
        return state.refuse_row();
    };
    state.take_row(order_surplus(order, prices))
}

// A refusal's sum is 0.
impl From<Result<Microcents, Outcome>> for Surplus {
    ghost from_gives = { λ total r. r ≡ answer_of total };

    fn from(total: Result<Microcents, Outcome>) -> Surplus {
        match total {
            Ok(sum) => Surplus {
                number: 0,
                index: 0,
                sum,
            },
            Err(refusal) => Surplus {
                number: refusal.number,
                index: refusal.index,
                sum: Microcents::ZERO,
            },
        }
    }
}

// The answer after the last row.
pub fn close_book(state: BookState) -> Surplus
    ensures { result ≡ close_of state }
{
    Surplus::from(state.total())
}
