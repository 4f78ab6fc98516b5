// A proposal from a solver's dump (S-5): rows 56 to 60 are asked of the dump, and each of its values becomes the
// field of the proposal at its place.
#![tactic(auto)]

ghost use Rattle.std.specs.Prelude.{◌≡◌, true, not, ◌++◌, ℕ, ◌+◌, ◌*◌, ◌≤◌, length};
ghost use Rattle.std.proofs.lemmas.List.Edits.{sets};
ghost use Rattle.base_integers.specs.Meaning.Bytes.{bytes_of};
ghost use Rattle.base_causes.specs.Meaning.Causes.{first_below};
ghost use Rattle.base_causes.specs.Meaning.Place.{place_of};
ghost use Rattle.base_output.specs.Meaning.Output.{written_of};
ghost use Rattle.case_header.specs.Meaning.CaseReadable.{CountsInRange};
ghost use Rattle.dump_binary64.specs.Meaning.Value.{bits_at, finite};
ghost use Rattle.dump_proposal.specs.Meaning.Dump.{proposal_mark, DumpAnswered};
ghost use Rattle.dump_proposal.specs.Steps.Walks.{rest_of, table_bytes, OpeningHeld, OpeningRead, RestConverted};

mod finite;

use base_causes::{Outcome, refused};
use base_integers::Bits;
use base_output::Written;
use bytes_read::Cursor;
use bytes_write::put;
use case_file::{Files, read_case};
use case_header::{Counts, ReadableCase};
use dump_binary64::{is_finite, value};
use dump_values::{DumpOpening, OpeningFields, field_of, opening_fields};
use finite::Dump;

// The values before the orders' shares: the LTA share and the system price.
const OPENING: usize = layout::DUMP_OPENING;

// The bytes of a value.
const VALUE: usize = layout::DUMP_VALUE;

// Where the proposal's fields stand: after mark and version, and after the opening's two.
const FIELDS_AT: usize = layout::PROPOSAL_SHARE_AT;

const REST_AT: usize = layout::PROPOSAL_HEADER;

// The entries of the table of converted fields: enough for the largest case's orders, links and branches. A small
// case gets a small table, since clearing the large one takes longer than converting a small dump.
const TABLE: usize = layout::ORDERS + layout::LINKS + layout::BRANCHES;

const SMALL_TABLE: usize = 64;

// 2 ^ 32.
const WORD_END: u64 = layout::WORD_VALUES;

// 57: the dump's length is wrong.
const WRONG_LENGTH: Outcome = Outcome {
    number: 57,
    index: 0,
};

// 59 at the opening: the LTA share or the system price has no field.
const NO_SHARE: Outcome = Outcome {
    number: 59,
    index: 0,
};

const NO_SYSTEM_PRICE: Outcome = Outcome {
    number: 59,
    index: 1,
};

// 60: the output is too short.
const SHORT_OUTPUT: Outcome = Outcome {
    number: 60,
    index: 0,
};

// The values after the opening.
fn rest_of(k: Counts) -> usize
    requires { CountsInRange k }
    ensures { result ≡ rest_of k }
{
    k.orders + k.links + k.branches
}

// Row 58. The length is right, so no value is missing. A cursor walks beside the index, as document 01 asks.
fn first_not_finite(dump: &[u8], count: usize) -> Option<usize>
    requires { 8 * count ≤ length dump.now }
    ensures { place_of result ≡ first_below count (λ n. not (finite (bits_at dump.now n))) }
{
    let mut cursor = Cursor::new(0);
    for n in 0..count {
        let Some((bits, next)) = cursor.take::<u64>(dump) else {
            return Some(n);
        };
        if !is_finite(bits) {
            return Some(n);
        }
        cursor = next;
    }
    None
}

// The 32 bits of a field.
fn low32(x: Bits) -> u32
    ensures { bytes_of 4 result ≡ bytes_of 4 x.0 }
{
    (x.0 % WORD_END) as u32
}

// WRITING, once every row of the table passed: mark and version.
fn put_mark(out: &mut [u8])
    requires { 5 ≤ length out.old }
    ensures { out.new ≡ sets out.old 0 proposal_mark }
{
    out[0] = layout::MARK_FIRST;
    out[1] = layout::MARK_SECOND;
    out[2] = layout::PROPOSAL_LETTER;
    out[3] = 1;
    out[4] = 0;
}

fn write_opening(out: &mut [u8], opening: OpeningFields<Bits>)
    requires { 13 ≤ length out.old }
    ensures { out.new ≡ sets out.old 0 (proposal_mark ++ (bytes_of 4 opening.share.0 ++ bytes_of 4 opening.system.0)) }
{
    put_mark(out);
    put::<4>(out, FIELDS_AT, opening.share);
    put::<4>(out, FIELDS_AT + 4, opening.system);
}

// The fields after the opening's, from the table.
fn write_rest(table: &[u32], rest: usize, out: &mut [u8])
    requires rest_in_bounds { rest ≤ length table.now }
    requires rest_in_bounds_2 { 13 + 4 * rest ≤ length out.old }
    ensures { out.new ≡ sets out.old 13 (table_bytes rest table.now) }
{
    for (i, field) in table[..rest].iter().enumerate() {
        put::<4>(out, REST_AT + 4 * i, Bits(u64::from(*field)));
    }
}

impl Dump<'_, '_> {
    // Row 59 at the opening: its two fields, and the cursor past it, which stands at the first order's share.
    fn opening(self) -> Result<(OpeningFields<Bits>, Cursor), Outcome>
        ensures { OpeningRead self.entry.case.bytes.now self.entry.bytes.now result }
    {
        let Some((share, at_system)) = Cursor::new(0).take::<u64>(self.bytes) else {
            return Err(WRONG_LENGTH);
        };
        let Some((system, at_rest)) = at_system.take::<u64>(self.bytes) else {
            return Err(WRONG_LENGTH);
        };
        let fields = opening_fields(DumpOpening {
            share: value(share),
            system: value(system),
        });
        let Some(share) = fields.share else {
            return Err(NO_SHARE);
        };
        let Some(system) = fields.system else {
            return Err(NO_SYSTEM_PRICE);
        };
        Ok((OpeningFields { share, system }, at_rest))
    }

    // Row 59, after the opening: each value's field into the table, up to the first without one. Each value is taken
    // over a slice of eight bytes: the length is known, so the compiler drops the test for a missing field from the
    // loop. A cursor walks beside the index, as document 01 asks.
    fn convert_rest(self, start: Cursor, table: &mut [u32]) -> Option<usize>
        requires at_value { start.at ≡ 16 }
        requires table_in_bounds { rest_of self.case.counts ≤ length table.old }
        ensures { RestConverted self.entry.case.bytes.now self.entry.bytes.now (rest_of self.entry.case.counts) (place_of result) table.new }
    {
        let mut cursor = start;
        for i in 0..rest_of(self.case.counts) {
            let at = cursor.at;
            let field = &self.bytes[at..at + VALUE];
            let Some((bits, past)) = Cursor::new(0).take::<u64>(field) else {
                return Some(i);
            };
            let Some(x) = field_of(self.case, i, bits) else {
                return Some(i);
            };
            table[i] = low32(x);
            cursor = past.in_file(at);
        }
        None
    }

    // Rows 59 and 60, for a dump whose opening has its fields, and the proposal and its length: the other values are
    // converted into a table of N entries, and nothing is written before all of them are.
    fn convert_by<const N: usize>(
        self,
        start: Cursor,
        opening: OpeningFields<Bits>,
        out: &mut [u8],
    ) -> Result<usize, Outcome>
        requires at_value { start.at ≡ 16 }
        requires opening_held { OpeningHeld self.case.bytes.now self.bytes.now opening }
        requires table_in_bounds { rest_of self.case.counts ≤ N }
        requires table_bound { N ≤ 640 }
        ensures { DumpAnswered self.entry.case.bytes.now self.entry.bytes.now out.old (written_of result) out.new }
    {
        let mut table = [0u32; N];
        if let Some(i) = self.convert_rest(start, &mut table) {
            return refused(59, (OPENING + i) as u32);
        }
        let rest = rest_of(self.case.counts);
        let length = REST_AT + 4 * rest;
        if out.len() < length {
            return Err(SHORT_OUTPUT);
        }
        write_opening(out, opening);
        write_rest(&table, rest, out);
        Ok(length)
    }

    // Rows 59 and 60, and the proposal and its length.
    fn convert(self, out: &mut [u8]) -> Result<usize, Outcome>
        ensures { DumpAnswered self.entry.case.bytes.now self.entry.bytes.now out.old (written_of result) out.new }
    {
        let (opening, start) = self.opening()?;
        if rest_of(self.case.counts) <= SMALL_TABLE {
            self.convert_by::<SMALL_TABLE>(start, opening, out)
        } else {
            self.convert_by::<TABLE>(start, opening, out)
        }
    }
}

// Rows 56 to 60, and the proposal and its length.
fn convert(case: &[u8], dump: &[u8], out: &mut [u8]) -> Result<usize, Outcome>
    ensures { DumpAnswered «case».now dump.now out.old (written_of result) out.new }
{
    let counts = match read_case(Files::Apart, case) {
        Ok(counts) => counts,
        Err(refusal) => {
            return refused(56, refusal.number);
        }
    };
    let case = ReadableCase {
        bytes: case,
        counts,
    };
    let count = OPENING + rest_of(counts);
    if dump.len() != VALUE * count {
        return Err(WRONG_LENGTH);
    }
    if let Some(n) = first_not_finite(dump, count) {
        return refused(58, n as u32);
    }
    Dump { case, bytes: dump }.convert(out)
}

// The proposal for a case, from a dump; `host` exports it.
pub fn dump_proposal(case: &[u8], dump: &[u8], out: &mut [u8]) -> Written
    ensures { DumpAnswered «case».now dump.now out.old result out.new }
{
    Written::from(convert(case, dump, out))
}
