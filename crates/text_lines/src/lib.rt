// The lines that the desk prints for one input. The driver cuts the input into case and proposal and judges it; the
// lines come from the totals and prices that it finds, and go into a lent buffer.
#![tactic(auto)]

ghost use Rattle.std.specs.Prelude.{◌≡◌, ◌≤◌, length};
ghost use Rattle.text_rules.specs.Meaning.Put.{Put};
ghost use Rattle.rules.specs.Meaning.Verdict.{◌under◌};
ghost use Rattle.rules.specs.Meaning.Lines.{desk_text};
ghost use Rattle.text_lines.specs.Meaning.Printed.{desk_room, DeskPrinted};

use base_output::{Written, refused};
use case_file::Files;
use judge_stages::find_in;
use text_hour::{put_hour, put_verdict};

// All lines for an input.
fn put_lines(input: &[u8], out: &mut [u8]) -> usize
    requires { desk_room ≤ length out.old }
    ensures { Put out.old 0 (desk_text input.now) out.new result }
{
    // The input is lent as case and as proposal: the driver cuts it by the header, which it reads once.
    match find_in(Files::Joined, input, input, None) {
        Err(refusal) => put_verdict(out, 0, refusal),
        Ok(valued) => {
            let at = put_verdict(out, 0, valued.verdict);
            put_hour(
                out,
                at,
                valued.hour.case.counts.zones,
                valued.totals,
                valued.prices,
            )
        }
    }
}

// The room that the lines of every input have.
pub const ROOM: usize = layout::DESK_ROOM;

// Whether an output is too short for them. The one refusal here: a Result inside would be longer.
fn too_short(room: usize) -> bool
    ensures { result ≡ room under desk_room }
{
    room < ROOM
}

// Writes the lines for an input at the start of `out` and returns their length; or, where `out` has less than that
// room, refuses by 31 with length 0 and `out` unchanged.
pub fn lines(input: &[u8], out: &mut [u8]) -> Written
    ensures { DeskPrinted input.now out.old result out.new }
{
    if too_short(out.len()) {
        return refused(31, 0);
    }
    Written::from(Ok(put_lines(input, out)))
}
