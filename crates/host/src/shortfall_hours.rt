// The shortfalls of an accepted hour (request S-14).
ghost use Rattle.std.specs.Prelude.{◌≡◌, length};
ghost use Rattle.base_causes.specs.Meaning.Causes.{verdict};
ghost use Rattle.rules.specs.Meaning.Hour.{case_of, plan_of, prices_of};
ghost use Rattle.short_rules.specs.Meaning.Answer.{shortfall_outcome, shortfall_written, shortfall_output, Answers};

use base_output::Written;
use short_hour::hour_shortfalls;

// Writes two numbers for each order, then each branch, then each link, at the start of `out`, and returns how many
// numbers that is. A pair is whole microcents, and hundred-thousandths of one below 100,000. An hour that is not
// accepted is refused by the judgement's number and index, and a short `out` by 86, with length 0 and `out`
// unchanged. In an answer each pair is its shortfall, none is negative, all together are at most the gap, and at
// gap zero each number is zero.
#[unsafe(no_mangle)]
pub extern "C" fn lta_shortfalls(case: &[u8], proposal: &[u8], out: &mut [i64]) -> Written
    ensures outcome { verdict result.number result.index ≡ shortfall_outcome «case».now proposal.now (length out.old) }
    ensures length { result.length ≡ length (shortfall_written «case».now proposal.now (length out.old)) }
    ensures output { out.new ≡ shortfall_output «case».now proposal.now out.old }
    ensures shortfalls { result.number ≡ 0 → Answers (case_of «case».now)
        (plan_of «case».now proposal.now) (prices_of «case».now proposal.now) out.new }
{
    hour_shortfalls(case, proposal, out)
}
