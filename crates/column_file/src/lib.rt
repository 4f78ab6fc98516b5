// Columns for the archive (request S-10): a readable case with its order part column by column, and the way back.
#![tactic(auto)]

ghost use Rattle.std.specs.Prelude.{◌≡◌, Ok, ◌++◌, ℕ, ◌+◌, ◌*◌, ◌^◌, ◌≤◌, ◌<◌, length, drop};
ghost use Rattle.std.proofs.lemmas.List.Edits.{sets};
ghost use Rattle.base_output.specs.Meaning.Output.{written_of};
ghost use Rattle.column_file.specs.Meaning.Columns.{arranged, restored_of, not_restored, CaseColumned, CaseRestored};
ghost use Rattle.column_file.specs.Meaning.Answer.{restore_by};
ghost use Rattle.column_file.specs.Steps.Stored.{every, orders};

use base_causes::Outcome;
use base_output::Written;
use bytes_read::Mark;
use case_file::{Files, read_case};
use case_header::take_header;
use layout::{
    CASE_HEADER, CASE_LETTER, COLUMNED_LETTER, LONGEST_CASE, MARK, MARK_FIRST, MARK_SECOND, ORDER,
};

const COLUMNED: Mark = Mark(MARK_FIRST, MARK_SECOND, COLUMNED_LETTER);

// The longest readable case.
const LONGEST: usize = LONGEST_CASE;

// 71: the case is not readable, or none results from the columns.
const UNREADABLE: Outcome = Outcome {
    number: 71,
    index: 0,
};

// 72: the output is shorter than the file.
const SHORT: Outcome = Outcome {
    number: 72,
    index: 0,
};

// One of the two arrangements of a file: the third letter of its mark, where its orders start, and the rows and
// columns of bytes that they are written as. The source has as many columns as this has rows.
#[derive(Clone, Copy)]
struct Arrangement {
    letter: u8,
    start: usize,
    rows: usize,
    columns: usize,
    ghost within: { start + rows < 2 ^ 64 },
}

// `count` bytes from a place on, at the same places. No `copy_from_slice`: between two lent slices whose length is not
// known it asks for memmove, and the library may ask for memcpy and memset alone (tests/object_code).
fn copy(source: &[u8], at: usize, count: usize, out: &mut [u8])
    requires source_in_bounds { at + count ≤ length source.now }
    requires out_in_bounds { at + count ≤ length out.old }
    ensures { out.new ≡ sets out.old at (every at 1 count source.now) }
{
    for j in 0..count {
        out[at + j] = source[at + j];
    }
}

impl Arrangement {
    // Row i of the orders, which is a column of the source.
    fn put_row(self, source: &[u8], i: usize, out: &mut [u8])
        requires row { i < self.rows }
        requires source_in_bounds { self.start + self.rows * self.columns ≤ length source.now }
        requires out_in_bounds { self.start + self.rows * self.columns ≤ length out.old }
        ensures { out.new ≡ sets out.old (self.start + i * self.columns) (every (self.start + i) self.rows self.columns source.now) }
    {
        // Two buffers are indexed, each by a step of its own.
        for j in 0..self.columns {
            out[self.start + i * self.columns + j] = source[self.start + i + j * self.rows];
        }
    }

    fn put_orders(self, source: &[u8], out: &mut [u8])
        requires source_in_bounds { self.start + self.rows * self.columns ≤ length source.now }
        requires out_in_bounds { self.start + self.rows * self.columns ≤ length out.old }
        ensures { out.new ≡ sets out.old self.start (orders self.start self.rows self.columns (self.rows * self.columns) source.now) }
    {
        for i in 0..self.rows {
            self.put_row(source, i, out);
        }
    }

    // The whole file in this arrangement; all past it is unchanged.
    fn put_file(self, source: &[u8], out: &mut [u8])
        requires le_start { 3 ≤ self.start }
        requires columns_value { self.start + self.rows * self.columns ≡ length source.now }
        requires source_in_bounds { length source.now ≤ length out.old }
        ensures { out.new ≡ arranged self.letter self.start self.rows self.columns source.now ++ drop (length source.now) out.old }
    {
        out[0] = MARK_FIRST;
        out[1] = MARK_SECOND;
        out[2] = self.letter;
        copy(source, MARK, self.start - MARK, out);
        self.put_orders(source, out);
    }
}

// A readable case in columns, and its length.
fn put_columned(case: &[u8], out: &mut [u8]) -> Result<usize, Outcome>
    ensures { CaseColumned «case».now out.old (written_of result) out.new }
{
    let Ok(k) = read_case(Files::Apart, case) else {
        return Err(UNREADABLE);
    };
    if out.len() < case.len() {
        return Err(SHORT);
    }
    let columns = Arrangement {
        letter: COLUMNED_LETTER,
        start: case.len() - ORDER * k.orders,
        rows: ORDER,
        columns: k.orders,
    };
    columns.put_file(case, out);
    Ok(case.len())
}

// The case of a columned file, into room of its length, where the mark is LTK and the case is readable. The orders
// end the file, so its length tells where they start. Where the header demands another length, no readable case
// results either way.
fn restore(file: &[u8], case: &mut [u8]) -> Result<(), Outcome>
    requires { length «case».old ≡ length file.now }
    ensures value { result ≡ restore_by (not_restored file.now) }
    ensures case_after { result ≡ Ok tt → «case».new ≡ restored_of file.now }
{
    let Ok(h) = take_header(file) else {
        return Err(UNREADABLE);
    };
    if h.mark.differs(COLUMNED) {
        return Err(UNREADABLE);
    }
    let orders = usize::from(h.orders);
    if file.len() - CASE_HEADER < ORDER * orders {
        return Err(UNREADABLE);
    }
    let rows = Arrangement {
        letter: CASE_LETTER,
        start: file.len() - ORDER * orders,
        rows: orders,
        columns: ORDER,
    };
    rows.put_file(file, case);
    let Ok(_) = read_case(Files::Apart, case) else {
        return Err(UNREADABLE);
    };
    Ok(())
}

// Room for the longest case.
pub fn blank() -> [u8; LONGEST]
    ensures { length result ≡ 10126 }
{
    [0u8; LONGEST]
}

// The case of a columned file, and its length. It is made in a local array first, since a refusal must leave the
// output unchanged.
fn put_restored(file: &[u8], out: &mut [u8]) -> Result<usize, Outcome>
    ensures { CaseRestored file.now out.old (written_of result) out.new }
{
    let length = file.len();
    if LONGEST < length {
        return Err(UNREADABLE);
    }
    let mut case = blank();
    restore(file, &mut case[..length])?;
    if out.len() < length {
        return Err(SHORT);
    }
    copy(&case, 0, length, out);
    Ok(length)
}

// A readable case in columns.
pub fn columned(case: &[u8], out: &mut [u8]) -> Written
    ensures { CaseColumned «case».now out.old result out.new }
{
    Written::from(put_columned(case, out))
}

// The case of a columned file.
pub fn restored(file: &[u8], out: &mut [u8]) -> Written
    ensures { CaseRestored file.now out.old result out.new }
{
    Written::from(put_restored(file, out))
}
