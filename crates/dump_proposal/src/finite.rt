// A dump that passes rows 56 to 58. The type says what was tested: a function that takes one need not ask for it.
ghost use Rattle.dump_proposal.specs.Steps.Walks.{FiniteDump};

use case_header::ReadableCase;

// The dump of a readable case: it has its length, and every value is finite.
#[derive(Clone, Copy)]
pub struct Dump<'a, 'b> {
    pub case: ReadableCase<'a>,
    pub bytes: &'b [u8],
    pub ghost passed: { FiniteDump case.bytes.now case.counts bytes.now },
}
