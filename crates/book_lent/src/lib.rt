// The order book that the host lends: one function over a slice of rows, whose loop calls what `book_surplus`
// proves for a row.
#![tactic(auto)]

ghost use Rattle.std.specs.Prelude.{◌≡◌};
ghost use Rattle.book_surplus.specs.Meaning.Lent.{lent_answer};

use book_surplus::{OrderRow, Surplus, add_row, close_book, open_book};

pub fn book_surplus(orders: &[OrderRow], zone_prices: &[i64]) -> Surplus
    ensures { result ≡ lent_answer orders.now zone_prices.now }
{
    let mut state = open_book(orders.len(), zone_prices);
    for i in 0..orders.len() {
        // No row is read past a refusal.
        if !state.asks_row(i, orders.len()) {
            break;
        }
        state = add_row(state, orders[i], zone_prices);
    }
    close_book(state)
}
