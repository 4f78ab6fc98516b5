// A solver's dump as a proposal for a case (request S-5).
ghost use Rattle.std.specs.Prelude.{◌≡◌, length, take};
ghost use Rattle.base_causes.specs.Meaning.Causes.{verdict};
ghost use Rattle.dump_proposal.specs.Meaning.Dump.{dump_outcome, dump_written, dump_output, ProposalHolds, VolumesWithin};
ghost use Rattle.dump_proposal.specs.Promised.PlainBytes.{WrittenProposal};

use base_output::Written;
use dump_proposal::dump_proposal;

// Writes the proposal at the start of `out` and returns its length; or refuses by 56 to 60, asked in that order,
// with length 0 and `out` unchanged. An answer's bytes have the right length for the case and pass rows 9 to 14.
// Each field holds the number of its own value; each volume is at most its quantity and within one tenth of the
// exact product. [bytes] gives every byte of `out`, each number computed from the eight bytes of its value.
#[unsafe(no_mangle)]
pub extern "C" fn lta_dump_proposal(case: &[u8], dump: &[u8], out: &mut [u8]) -> Written
    ensures outcome { verdict result.number result.index ≡ dump_outcome «case».now dump.now (length out.old) }
    ensures length { result.length ≡ length (dump_written «case».now dump.now (length out.old)) }
    ensures output { out.new ≡ dump_output «case».now dump.now out.old }
    ensures read_back { result.number ≡ 0 → ProposalHolds «case».now dump.now (take result.length out.new) }
    ensures volumes { result.number ≡ 0 → VolumesWithin «case».now dump.now (take result.length out.new) }
    ensures bytes { result.number ≡ 0 → WrittenProposal «case».now dump.now out.old out.new }
{
    dump_proposal(case, dump, out)
}
