// A case for the archive, with its orders column by column, and the way back (request S-10).
ghost use Rattle.std.specs.Prelude.{◌≡◌, length, take};
ghost use Rattle.base_causes.specs.Meaning.Causes.{verdict};
ghost use Rattle.column_file.specs.Meaning.Columns.{columned_outcome, columned_written, columned_output, restored_outcome, restored_written, restored_output, Columned, ComesBack, NotJudged, Restored};

use base_output::Written;
use column_file::{columned, restored};

// Writes the columned file at the start of `out` and returns its length; or refuses by 71, then 72, with length 0
// and `out` unchanged. An answer's bytes are the case in columns. `lta_case_restored` gives the case again, and the
// judgement refuses the file by 2.
#[unsafe(no_mangle)]
pub extern "C" fn lta_case_columned(case: &[u8], out: &mut [u8]) -> Written
    ensures outcome { verdict result.number result.index ≡ columned_outcome «case».now (length out.old) }
    ensures length { result.length ≡ length (columned_written «case».now (length out.old)) }
    ensures output { out.new ≡ columned_output «case».now out.old }
    ensures columns { result.number ≡ 0 → Columned «case».now (take result.length out.new) }
    ensures back { result.number ≡ 0 → ComesBack «case».now (take result.length out.new) }
    ensures not_judged { result.number ≡ 0 → NotJudged (take result.length out.new) }
{
    columned(case, out)
}

// Writes the case at the start of `out` and returns its length; or refuses in the same way. An answer's bytes are a
// readable case, and columning it gives the file again.
#[unsafe(no_mangle)]
pub extern "C" fn lta_case_restored(file: &[u8], out: &mut [u8]) -> Written
    ensures outcome { verdict result.number result.index ≡ restored_outcome file.now (length out.old) }
    ensures length { result.length ≡ length (restored_written file.now (length out.old)) }
    ensures output { out.new ≡ restored_output file.now out.old }
    ensures restored { result.number ≡ 0 → Restored file.now (take result.length out.new) }
{
    restored(file, out)
}
