// One shortfall of an accepted hour (request S-14), in the measures' types: of an order, of a branch, of a link.
// All three share one form: a room at a price where that is above zero, less what is used of it at the price.
#![tactic(auto)]

ghost use Rattle.std.specs.Prelude.{◌≡◌, [], ℕ, ◌≤◌, ◌<◌, get_or, pos};
ghost use Rattle.base_integers.specs.Meaning.Ranges.{Within};
ghost use Rattle.base_integers.specs.Meaning.Machine.{SumsFit};
ghost use Rattle.base_integers.specs.Meaning.Sums.{sum_to};
ghost use Rattle.base_limits.specs.Meaning.Limits as limits;
ghost use Rattle.case_branches.specs.Meaning.Table.{table_of};
ghost use Rattle.short_single.specs.Meaning.Short.{Exact};
ghost use Rattle.short_single.specs.Steps.Short.{short_of, Shortable};
ghost use Rattle.short_single.specs.Meaning.OfHour.{counts_of, order_of, branch_of, link_of};
ghost use Rattle.short_single.specs.Steps.HourAccepted.{load_on};

mod hour;

use base_measures::{ExactMicrocents, Grains, Load, Measure, Ptdf, Tenths};
use book_order::unit_gain;
use case_branches::margin_at;
use case_links::link_at;
use case_orders::order_at;
pub use hour::AcceptedHour;
use proposal_file::{flow_at, shadow_at, volume_at};

// A room at a price where that is above zero, less what is used of it at the price. For a price above zero that is
// the rest of the room at it; for one below, all that is used, at the price with its sign turned.
fn short(room: Load, used: Load, price: Grains) -> ExactMicrocents
    requires { Shortable room.0 used.0 price.0 }
    ensures { Exact (short_of room.0 used.0 price.0) result }
{
    if price < Grains::ZERO {
        return used.cost(Grains::ZERO.minus(price));
    }
    room.minus(used).cost(price)
}

// Rule 5's sum over the zones, for a branch with these PTDFs. Both arrays are passed whole and by value, as document 01
// has the table; a slice lent is no plainer, since their type says that they have a number for every zone.
fn load_of(row: [i32; 16], parts: [Tenths; layout::ZONES], zones: usize) -> Load
    requires zones_bound { zones ≤ 16 }
    requires sums_fit { SumsFit (load_on row parts) zones }
    requires by_index { (z : ℕ) → z < zones → Within limits.ptdf (get_or row z (pos 0)) }
    ensures { result.0 ≡ sum_to zones (load_on row parts) }
{
    let mut load = Load::ZERO;
    for (z, part) in parts[..zones].iter().enumerate() {
        let ptdf = Ptdf::of_entry(row[z]);
        load = load.plus(ptdf.load(*part));
    }
    load
}

impl AcceptedHour<'_> {
    // Order i: the room is its quantity, its volume is used, and the price is the gain of a unit.
    pub fn order_shortfall(&self, i: usize) -> ExactMicrocents
        requires { i < (counts_of self.now).orders }
        ensures { Exact (order_of self.now i) result }
    {
        let order = order_at(self.hour.case, i);
        let volume = volume_at(self.hour, i);
        let zone = order.zone;
        let quantity = order.quantity;
        let gain = unit_gain(order.buys, order.price.in_grains(), self.prices[zone]);
        short(quantity.scaled_by_one(), volume.scaled_by_one(), gain)
    }

    // Branch m, with its row of the PTDF table: the room is its margin scaled by the flow-based share, its load is
    // used, and the price is its shadow price.
    pub fn branch_shortfall(&self, row: [i32; 16], m: usize) -> ExactMicrocents
        requires m_lt_branches { m < (counts_of self.now).branches }
        requires row_value { row ≡ get_or (table_of self.now.hour.«case».bytes.now) m [] }
        ensures { Exact (branch_of self.now m) result }
    {
        let share = self.hour.opening.share;
        let margin = margin_at(self.hour.case, m);
        let shadow = shadow_at(self.hour, m);
        let load = load_of(row, self.parts, self.hour.case.counts.zones);
        short(
            share.flow_based().of_volume(margin),
            load,
            shadow.in_grains(),
        )
    }

    // Link l: the room is its capacity scaled by the LTA share, its flow is used, and the price is its spread. Its
    // contracted volume does not enter.
    pub fn link_shortfall(&self, l: usize) -> ExactMicrocents
        requires { l < (counts_of self.now).links }
        ensures { Exact (link_of self.now l) result }
    {
        let share = self.hour.opening.share;
        let link = link_at(self.hour.case, l);
        let flow = flow_at(self.hour, l);
        let to = link.to;
        let from = link.from;
        let capacity = link.capacity;
        let spread = self.prices[to].minus(self.prices[from]);
        short(share.of_volume(capacity), flow.scaled_by_one(), spread)
    }
}
