// A published margin sheet as the branch part of a case (request S-1).
ghost use Rattle.std.specs.Prelude.{◌≡◌, List, ◌++◌, ℕ, length, take};
ghost use Rattle.base_causes.specs.Meaning.Causes.{verdict};
ghost use Rattle.sheet_lines.specs.Meaning.Sheet.{Header, SheetInCase, line_count, sheet_outcome, sheet_written, sheet_output};
ghost use Rattle.sheet_lines.specs.Promised.PlainBytes.{BranchesOf};
ghost use Rattle.sheet_lines.specs.Promised.PlainCauses.{AnswersTo};

use base_output::Written;
use sheet_branches::sheet_branches;

// Writes the branches at the start of `out` and returns their length; or refuses by 50 to 55, asked in that order,
// with length 0 and `out` unchanged. Put an answer's bytes after any header with these zones and that many
// branches, and before anything: they hold the sheet's margins and its PTDFs with their sign turned, and row 6
// passes. `causes` says in plain numbers which sheet gives which answer, both ways; `bytes` says where each number
// of an answered sheet stands.
#[unsafe(no_mangle)]
pub extern "C" fn lta_sheet_branches(sheet: &[u8], zones: usize, out: &mut [u8]) -> Written
    ensures outcome { verdict result.number result.index ≡ sheet_outcome zones sheet.now (length out.old) }
    ensures length { result.length ≡ length (sheet_written zones sheet.now (length out.old)) }
    ensures output { out.new ≡ sheet_output zones sheet.now out.old }
    ensures branches { result.number ≡ 0 → (header rest : List ℕ) → Header zones (line_count sheet.now) header
        → SheetInCase zones sheet.now (header ++ (take result.length out.new ++ rest)) }
    ensures causes { AnswersTo zones sheet.now (length out.old) (verdict result.number result.index) }
    ensures bytes { result.number ≡ 0 → BranchesOf zones sheet.now result.length out.old out.new }
{
    sheet_branches(sheet, zones, out)
}
