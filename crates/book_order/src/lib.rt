// One order: a lent row within its limits, and its surplus at a zone price (rule 8). The case file and the lent
// book share it.
#![tactic(auto)]

ghost use Rattle.std.specs.Prelude.{◌≡◌, pos};
ghost use Rattle.base_integers.specs.Meaning.Ranges.{Within};
ghost use Rattle.base_limits.specs.Meaning.Limits as limits;
ghost use Rattle.rules.specs.Meaning.Hour as rules;
ghost use Rattle.book_order.specs.Meaning.Answer.{admitted};
ghost use Rattle.book_order.specs.Meaning.Admitted.{surplus_at};

use base_measures::{Cents, Grains, Measure, Microcents, Raw, Tenths};

// `buys` is a Bool as in `above` and `signed` of document 01, which an enum of two sides would only be turned into.
#[derive(Clone, Copy)]
pub struct Order {
    pub zone: usize,
    pub buys: bool,
    pub quantity: Tenths,
    pub price: Cents,
}

// The order of a row whose fields are all in range, with `zones` zones. Side 0 buys, 1 sells.
#[tactic(auto, unfolding(rules::specs::Meaning::Verdict::bad_row, rules::specs::Meaning::Verdict::row_fault, base_causes::specs::Meaning::Causes::any_below))]
pub fn admit(zones: usize, zone: usize, side: u8, quantity: u32, price: Raw) -> Option<Order>
    ensures { result ≡ admitted zones zone side quantity price.0 }
{
    if zones <= zone || 1 < side {
        return None;
    }
    Some(Order {
        zone,
        buys: side == 0,
        quantity: Tenths::quantity(Raw::from(quantity))?,
        price: Cents::order_price(price)?,
    })
}

// How far an order's price is on the good side of its zone's, in grains.
pub fn unit_gain(buys: bool, price: Grains, at: Grains) -> Grains
    requires within { Within limits.zone_price price.0 }
    requires within_2 { Within limits.zone_price at.0 }
    ensures { result.0 ≡ rules.above buys price.0 at.0 }
{
    if buys {
        return price.minus(at);
    }
    at.minus(price)
}

// What an order would earn at the price of its zone, never below zero.
pub fn surplus(order: Order, at: Grains) -> Microcents
    requires within { Within limits.quantity order.quantity.0 }
    requires within_2 { Within limits.order_price order.price.0 }
    requires within_3 { Within limits.zone_price at.0 }
    ensures { result.0 ≡ surplus_at order at.0 }
{
    let price = order.price.in_grains();
    order
        .quantity
        .cost(unit_gain(order.buys, price, at))
        .positive()
}
