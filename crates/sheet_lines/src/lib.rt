// The lines of a published margin sheet (request S-1), read once: their faults, and the branches of a case that
// they turn into.
#![tactic(auto)]

ghost use Rattle.std.specs.Prelude.{◌≡◌, ◌+◌, ◌*◌, ◌≤◌, length};
ghost use Rattle.std.proofs.lemmas.List.Edits.{sets};
ghost use Rattle.base_integers.specs.Meaning.Bytes.{signed32};
ghost use Rattle.base_integers.specs.Meaning.Ranges as ranges;
ghost use Rattle.sheet_numbers.specs.Steps.Capped.{cap};
ghost use Rattle.sheet_lines.specs.Meaning.Sheet.{decimal_count, limit, branch_part};
ghost use Rattle.sheet_lines.specs.Steps.Entries.{entry_at, place, turned, entry_of_number};
ghost use Rattle.sheet_lines.specs.Meaning.Lines.{SheetRead};
ghost use Rattle.sheet_lines.specs.Steps.Lines.{mark_of, comma_missing, LineRead};

use base_integers::Bits;
use base_measures::{Ptdf, Raw, Tenths};
use bytes_write::put;
use sheet_numbers::{Number, TextCursor};

// The faults of a number: a decimal after ours is not zero; it is out of range. Both may hold at once, so it is no
// Option of one.
#[derive(Clone, Copy)]
struct Flaws {
    finer: bool,
    outside: bool,
}

// The first line of each cause, and how many lines there are.
#[derive(Clone, Copy)]
pub struct SheetFaults {
    pub malformed: Option<usize>,
    pub finer: Option<usize>,
    pub outside: Option<usize>,
    pub lines: usize,
}

// ENTRIES. What an entry of a branch is: its margin, or the PTDF of a zone.
#[derive(Clone, Copy)]
enum Entry {
    Margin,
    Ptdf,
}

impl Entry {
    // The margin comes first.
    fn at(j: usize) -> Entry
        ensures { result ≡ entry_at j }
    {
        if j == 0 { Entry::Margin } else { Entry::Ptdf }
    }

    fn decimals(self) -> usize
        ensures { result ≡ decimal_count (place self) }
    {
        match self {
            Entry::Margin => 1,
            Entry::Ptdf => 5,
        }
    }

    // Sheets count export positive: a PTDF's sign is turned, a margin's is not.
    fn turned(self, negative: bool) -> bool
        ensures { result ≡ turned (place self) negative }
    {
        match self {
            Entry::Margin => negative,
            Entry::Ptdf => !negative,
        }
    }

    // A number of a sheet as the field of this entry.
    fn field(self, x: Number) -> i32
        requires { x.units ≤ cap }
        ensures { result ≡ entry_of_number (place self) x }
    {
        let size = x.units as i32;
        if self.turned(x.negative) { -size } else { size }
    }

    // Whether a field is outside its measure's limits.
    fn out_of_range(self, x: i32) -> bool
        ensures { result ≡ ranges.outside (limit (place self)) x }
    {
        match self {
            Entry::Margin => Tenths::margin(Raw::from(x)).is_none(),
            Entry::Ptdf => Ptdf::new(Raw::from(x)).is_none(),
        }
    }
}

// The bytes of n branches.
pub fn branch_part(zones: usize, n: usize) -> usize
    requires zones_bound { zones ≤ 16 }
    requires n_bound { n ≤ 65 }
    ensures { result ≡ branch_part zones n }
{
    4 * (zones + 1) * n
}

// LINES. A comma ends each field except the last, which the line's newline ends.
fn mark(zones: usize, j: usize) -> u8
    ensures { result ≡ mark_of zones j }
{
    if j < zones { b',' } else { b'\n' }
}

// Whether the sheet ends with a field that is not the last of its line. Without this test the next field, an empty
// one past the end, would be refused instead. The loop was slower without it.
fn comma_missing(zones: usize, j: usize, end: usize, length: usize) -> bool
    ensures { result ≡ comma_missing zones j end length }
{
    j < zones && length <= end
}

// A field in two's complement.
#[tactic(auto, unfolding(base_integers::specs::Meaning::Bytes::signed32))]
fn put_signed32(table: &mut [u8], at: usize, x: i32)
    requires { at + 4 ≤ length table.old }
    ensures { table.new ≡ sets table.old at (signed32 x) }
{
    put::<4>(table, at, Bits(u64::from(x.cast_unsigned())));
}

// The line that starts at the cursor, if its fields are all numbers: their faults, and where the next line starts.
// Its numbers go into the table at `base`.
fn read_line(
    sheet: &[u8],
    start: TextCursor,
    zones: usize,
    table: &mut [u8],
    base: usize,
) -> Option<(Flaws, TextCursor)>
    requires at_in_bounds { start.at ≤ length sheet.now }
    requires zones_in_bounds { base + 4 * (zones + 1) ≤ length table.old }
    ensures { LineRead zones sheet.now start.at base table.old table.new result }
{
    let mut cursor = start;
    let mut finer = false;
    let mut outside = false;
    for j in 0..zones + 1 {
        let entry = Entry::at(j);
        let (x, piece) = cursor.number(sheet, mark(zones, j), entry.decimals())?;
        if comma_missing(zones, j, piece.end, sheet.len()) {
            return None;
        }
        let y = entry.field(x);
        put_signed32(table, base + 4 * j, y);
        finer |= x.finer;
        outside |= entry.out_of_range(y);
        cursor = piece.next;
    }
    Some((Flaws { finer, outside }, cursor))
}

// One walk over the whole sheet. A malformed line ends it, since row 51 is asked before the others.
pub fn read_lines(sheet: &[u8], zones: usize, table: &mut [u8]) -> SheetFaults
    requires zones_bound { zones ≤ 16 }
    requires in_bounds { 4420 ≤ length table.old }
    ensures { SheetRead zones sheet.now table.old table.new result }
{
    let mut cursor = TextCursor { at: 0 };
    let mut finer = None;
    let mut outside = None;
    // No range or iterator counts the lines: where one ends is known only once it is read.
    let mut n: usize = 0;
    while cursor.at < sheet.len() {
        // Lines past the 64th are read only for their causes: they share one more row, which is never written out.
        let row = n.min(layout::BRANCHES);
        let base = branch_part(zones, row);
        let Some((flaws, next)) = read_line(sheet, cursor, zones, table, base) else {
            return SheetFaults {
                malformed: Some(n),
                finer,
                outside,
                lines: n,
            };
        };
        finer = finer.or(flaws.finer.then_some(n));
        outside = outside.or(flaws.outside.then_some(n));
        cursor = next;
        n += 1;
    }
    SheetFaults {
        malformed: None,
        finer,
        outside,
        lines: n,
    }
}
