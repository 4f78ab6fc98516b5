// The desk program's text for an input, for a host that prints it itself.
ghost use Rattle.std.specs.Prelude.{◌≡◌, ◌≤◌, length, take};
ghost use Rattle.base_causes.specs.Meaning.Causes.{verdict};
ghost use Rattle.text_lines.specs.Meaning.Printed.{desk_outcome, desk_written, desk_output};
ghost use Rattle.text_lines.specs.Promised.PlainText.{PlainText};

use base_output::Written;
use text_lines::lines;

// Writes the lines for a case directly followed by its proposal at the start of `out` and returns their length; or
// refuses by 31 if `out` has less than the desk's room, with length 0 and `out` unchanged. The verdict on the hour
// is in the text's first line, not in this number.
#[unsafe(no_mangle)]
pub extern "C" fn lta_desk_lines(input: &[u8], out: &mut [u8]) -> Written
    ensures outcome { verdict result.number result.index ≡ desk_outcome (length out.old) }
    ensures length { result.length ≡ length (desk_written (length out.old) input.now) }
    ensures output { out.new ≡ desk_output input.now out.old }
    ensures within { (result.length ≤ length out.new) × (result.length ≡ length (take result.length out.new)) }
    ensures text { 1024 ≤ length out.old → PlainText input.now (take result.length out.new) }
{
    lines(input, out)
}
