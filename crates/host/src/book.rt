// The order book lent by the host: its rows, and a list of zone prices in grains.
ghost use Rattle.std.specs.Prelude.{◌≡◌};
ghost use Rattle.book_surplus.specs.Meaning.Lent.{lent_answer};
ghost use Rattle.book_surplus.specs.Promised.PlainLent.{PlainAnswer};

use book_lent::book_surplus;
use book_surplus::{OrderRow, Surplus};

// The sum of rule 8 in microcents, or a refusal with sum 0: 4 index 5, 4 index 8, 8 with the row, 25 with the zone,
// asked in that order. `PlainAnswer` says in plain numbers which book gets which answer.
#[unsafe(no_mangle)]
pub extern "C" fn lta_book_surplus(orders: &[OrderRow], zone_prices: &[i64]) -> Surplus
    ensures { (result ≡ lent_answer orders.now zone_prices.now) × PlainAnswer orders.now zone_prices.now result }
{
    book_surplus(orders, zone_prices)
}
