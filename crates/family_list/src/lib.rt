// The family list (S-11), which comes with a case and names a parent for each order: rows 16 to 18 of the verdict
// table.
#![tactic(auto)]

ghost use Rattle.std.specs.Prelude.{◌≡◌, ◌+◌, ◌<◌, ◌≤◌, length, Ok, Err, IfOk, IfErr};
ghost use Rattle.base_causes.specs.Meaning.Causes.{first_below};
ghost use Rattle.base_causes.specs.Meaning.Place.{place_of};
ghost use Rattle.bytes_read.specs.Meaning.Field.{cursor};
ghost use Rattle.bytes_read.specs.Meaning.Walk.{past_at, walked, rows_walked};
ghost use Rattle.rules.specs.Meaning.Families.{family_header, family_length, named, parent_in, parent_of, missing, leads_back, LeadsBack};
ghost use Rattle.family_list.specs.Steps.Round.{Least};
ghost use Rattle.family_list.specs.Steps.Walk.{held, Trail};
ghost use Rattle.family_list.specs.Steps.Parents.{ParentsTaken, Search};
ghost use Rattle.family_list.specs.Meaning.Answer.{header_by, parent_cause, list_causes, circle_answer, family_answer, wrong_list};
ghost use Rattle.family_list.specs.Meaning.Answer.{ListLengthValid, FamiliesReadable};

use base_causes::{Outcome, refused};
use bytes_read::{Cursor, Field, Mark};

const MARK: Mark = Mark(
    layout::MARK_FIRST,
    layout::MARK_SECOND,
    layout::FAMILY_LETTER,
);

const VERSION: u16 = 1;

// No parent.
const NONE: u16 = 65535;

// Row 16, for any field of the header that cannot be taken, and for a wrong mark, version or length.
const WRONG_LIST: Outcome = Outcome {
    number: 16,
    index: 0,
};

// A family list that passes rows 16 and 17, with the number of its case's orders.
#[derive(Clone, Copy)]
pub struct ReadableFamilies<'a> {
    pub list: &'a [u8],
    pub orders: usize,
    pub ghost readable: { FamiliesReadable list.now orders },
}

impl ReadableFamilies<'_> {
    // The order that order i names as its parent, if it names one.
    #[tactic(auto, unfolding(rules::specs::Meaning::Families::parent_of))]
    pub fn parent(self, i: usize) -> Option<usize>
        requires { i < self.orders }
        ensures { place_of result ≡ parent_of self.entry.list.now i }
    {
        named(number_at(self.list, self.orders, i))
    }
}

// ROW 16: the header, field by field, and the length of the rest. A field that cannot be taken ends the walk: the
// list is too short.
#[tactic(auto, unfolding(rules::specs::Meaning::Families::family_version, rules::specs::Meaning::Families::family_length, rules::specs::Meaning::Verdict::not_mark))]
fn walk_header(families: &[u8], orders: usize) -> Result<Cursor, Outcome>
    requires { orders ≤ 512 }
    ensures { result ≡ header_by (wrong_list families.now orders) }
{
    let Some((mark, at_version)) = Cursor::new(0).take::<Mark>(families) else {
        return Err(WRONG_LIST);
    };
    let Some((version, at_parents)) = at_version.take::<u16>(families) else {
        return Err(WRONG_LIST);
    };
    if mark != MARK
        || version != VERSION
        || families.len() != at_parents.at + layout::PARENT * orders
    {
        return Err(WRONG_LIST);
    }
    Ok(at_parents)
}

// The number that order i gives for its parent, in a list that passes row 16.
#[tactic(auto, unfolding(rules::specs::Meaning::Families::family_length, rules::specs::Meaning::Families::parent_in))]
fn number_at(families: &[u8], orders: usize, i: usize) -> u16
    requires list_length_valid { ListLengthValid families.now orders }
    requires i_lt_orders { i < orders }
    ensures { result ≡ parent_in families.now i }
{
    u16::read(families, layout::FAMILY_HEADER + layout::PARENT * i)
}

// The order that a parent's number names, if it names one.
fn named(number: u16) -> Option<usize>
    ensures { place_of result ≡ named number }
{
    if number == NONE {
        return None;
    }
    Some(usize::from(number))
}

// ROW 17 for one order, by its number.
fn is_absent(orders: u16, parent: u16) -> bool
    ensures { result ≡ missing orders (named parent) }
{
    parent != NONE && orders <= parent
}

// ROW 17: copies the parents' numbers into the array. Each is read over a slice of two bytes, so its length is
// known. A parent that does not exist ends the walk with the order that names it. Row 16 passed, so none is
// missing.
fn walk_parents(
    families: &[u8],
    orders: usize,
    start: Cursor,
    up: &mut [u16; layout::ORDERS],
) -> Result<Cursor, Outcome>
    requires list_length_valid { ListLengthValid families.now orders }
    requires at_value { start.at ≡ family_header }
    ensures walk { result ≡ walked (parent_cause families.now orders) (cursor (family_length orders)) }
    ensures taken { result ≡ past_at (family_length orders) → ParentsTaken families.now orders up.new }
{
    let count = orders as u16;
    let mut cursor = start;
    for i in 0..orders {
        let at = cursor.at;
        let field = &families[at..at + layout::PARENT];
        let Some((parent, past)) = Cursor::new(0).take::<u16>(field) else {
            return Err(WRONG_LIST);
        };
        if is_absent(count, parent) {
            return refused(17, i as u32);
        }
        up[i] = parent;
        cursor = past.in_file(at);
    }
    Ok(cursor)
}

// ROWS 16 AND 17: one walk from the mark to the last parent.
fn walk_list(
    families: &[u8],
    orders: usize,
    up: &mut [u16; layout::ORDERS],
) -> Result<Cursor, Outcome>
    requires orders_bound { orders ≤ 512 }
    ensures walk { result ≡ rows_walked (list_causes families.now orders) (cursor (family_length orders)) }
    ensures taken { result ≡ past_at (family_length orders) → ParentsTaken families.now orders up.new }
{
    let parents = walk_header(families, orders)?;
    walk_parents(families, orders, parents, up)
}

// ROW 18. `up[i]` is the parent of order i until walk w visits i, then 512 + w, which is above every order.
// An enum (none, parent, walk) was tried: a chain of 512 orders takes 1.19 times as long, a circle of them 1.32 times.
const WALKS: usize = layout::ORDERS;

// Walk i: up from order i, over orders that no walk has visited, to the first visited one or one without a parent.
fn walk_up(up: &mut [u16; layout::ORDERS], orders: usize, i: usize) -> usize
    requires orders_bound { orders ≤ 512 }
    requires i_lt_orders { i < orders }
    ensures up_len_2 { length up.new ≡ 512 }
    ensures trail { Trail orders i (held up.old) result (held up.new) }
{
    let count = orders as u16;
    let mut tip = i;
    // No `for`: no index is counted, the walk follows the parents.
    while up[tip] < count {
        let next = usize::from(up[tip]);
        up[tip] = (WALKS + i) as u16;
        tip = next;
    }
    tip
}

// The least order on the circle that walk i reached at the order tip, found by going around once. If the walk came
// back to order i itself, that is the least: earlier walks have visited every order before it.
fn least_on_circle(families: ReadableFamilies<'_>, i: usize, tip: usize) -> usize
    requires tip_lt_orders { tip < families.orders }
    requires leads_back { LeadsBack (parent_of families.list.now) tip }
    ensures { Least (parent_of families.entry.list.now) families.entry.orders i tip result }
{
    if tip == i {
        return i;
    }
    let mut least = tip;
    // Each order on a circle has a parent. An `unwrap` would leave an instruction there that ends the program.
    let mut at = families.parent(tip).unwrap_or(tip);
    // No `for`: it follows the parents. `steps` is for the proof alone: the way around ends.
    let mut steps: usize = 1;
    while at != tip {
        least = least.min(at);
        at = families.parent(at).unwrap_or(at);
        steps = steps + 1;
    }
    least
}

// Order i in its turn, with a walk up from it unless a walk has visited it: the first order that leads back to
// itself among all visited so far.
fn first_after(
    families: ReadableFamilies<'_>,
    up: &mut [u16; layout::ORDERS],
    i: usize,
    first: usize,
) -> usize
    requires i_lt_orders { i < families.orders }
    requires search { Search families.list.now families.orders i first up.old }
    ensures { Search families.entry.list.now families.entry.orders (i + 1) result up.new }
{
    let count = families.orders as u16;
    if count <= up[i] {
        return first;
    }
    let tip = walk_up(up, families.orders, i);
    if up[tip] != (WALKS + i) as u16 {
        return first;
    }
    first.min(least_on_circle(families, i, tip))
}

// The first order that leads back to itself. An order that leads into a circle counts only if it is on it.
fn first_on_circle(families: ReadableFamilies<'_>, up: &mut [u16; layout::ORDERS]) -> Option<usize>
    requires { ParentsTaken families.list.now families.orders up.old }
    ensures { place_of result ≡ first_below families.entry.orders
        (leads_back families.entry.orders (parent_of families.entry.list.now)) }
{
    // The number of orders stands for none found: it bounds the loop, so an Option would be opened at each turn.
    let mut first = families.orders;
    let mut i = 0;
    // No range: `first` falls as the walks find circles.
    while i < first {
        first = first_after(families, up, i, first);
        i = i + 1;
    }
    if first < families.orders {
        return Some(first);
    }
    None
}

// ROW 18 for a family list that passes rows 16 and 17.
fn hold_circles(
    families: ReadableFamilies<'_>,
    up: &mut [u16; layout::ORDERS],
) -> Result<(), Outcome>
    requires { ParentsTaken families.list.now families.orders up.old }
    ensures { result ≡ circle_answer families.entry.list.now families.entry.orders }
{
    if let Some(i) = first_on_circle(families, up) {
        return refused(18, i as u32);
    }
    Ok(())
}

// ROWS 16 TO 18 of a family list, for a case with this many orders.
pub fn read_families(list: &[u8], orders: usize) -> Result<ReadableFamilies<'_>, Outcome>
    requires { orders ≤ 512 }
    ensures sound { IfOk result (λ f. f.list.now ≡ list.now × (f.orders ≡ orders × family_answer list.now orders ≡ Ok tt)) }
    ensures refused { IfErr result (λ o. family_answer list.now orders ≡ Err o) }
{
    // For the most orders there may be, and no Vec: the library allocates nothing (tests/object_code).
    let mut up = [0u16; layout::ORDERS];
    walk_list(list, orders, &mut up)?;
    let families = ReadableFamilies { list, orders };
    hold_circles(families, &mut up)?;
    Ok(families)
}
