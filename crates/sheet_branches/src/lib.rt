// Published margin sheets (request S-1): the branch part of a case from their text.
#![tactic(auto)]

ghost use Rattle.std.specs.Prelude.{◌≡◌, ◌≤◌, length};
ghost use Rattle.std.proofs.lemmas.List.Edits.{sets};
ghost use Rattle.sheet_branches.specs.Meaning.Answer.{SheetAnswered};

use base_causes::count_outside;
use base_output::{Written, refused};
use case_header::Counts;
use sheet_lines::{branch_part, read_lines};

// A row for each possible branch, and one more that all further lines share.
const TABLE: usize = (layout::BRANCHES + 1) * (layout::MARGIN + layout::PTDF * layout::ZONES);

// The branch part of a case, from a sheet's text and the zone count; `host` exports it. The sheet is read once,
// into a table. A refusal must leave the output unchanged, so the output is written only after every row of the
// table of causes has passed.
//
// The numbers are the rows of that table, as C gets them. No Result with an `Outcome` inside: a line's index has 64
// bits.
#[tactic(auto, using(crate::proofs::Steps::Rows::row_54, crate::proofs::Steps::Rows::row_55), unfolding(sheet_lines::specs::Meaning::Sheet::sheet_outcome, sheet_lines::specs::Meaning::Sheet::sheet_written, sheet_lines::specs::Meaning::Sheet::sheet_output))]
pub fn sheet_branches(sheet: &[u8], zones: usize, out: &mut [u8]) -> Written
    ensures { SheetAnswered zones sheet.now out.old out.new result }
{
    if count_outside(Counts::ZONES_LEAST, Counts::ZONES_GREATEST, zones) {
        return refused(50, 0);
    }
    let mut table = [0u8; TABLE];
    let found = read_lines(sheet, zones, &mut table);
    if let Some(line) = found.malformed {
        return refused(51, line);
    }
    if let Some(line) = found.finer {
        return refused(52, line);
    }
    if let Some(line) = found.outside {
        return refused(53, line);
    }
    if Counts::BRANCHES_GREATEST < found.lines {
        return refused(54, 0);
    }
    let length = branch_part(zones, found.lines);
    if out.len() < length {
        return refused(55, 0);
    }
    out[..length].copy_from_slice(&table[..length]);
    Written::from(Ok(length))
}
