// A case with its counts in one value, at the two stages of its reading. The type says what was tested: a function
// that takes one need not ask for it.
ghost use Rattle.case_header.specs.Meaning.CaseReadable.{CaseReadable, LengthValid};

use crate::Counts;

// A case that passes rows 1 to 5 of the verdict table: no field of it is missing.
#[derive(Clone, Copy)]
pub struct WholeCase<'a> {
    pub bytes: &'a [u8],
    pub counts: Counts,
    pub ghost whole: { LengthValid bytes.now counts },
}

// A readable case: it passes rows 1 to 8.
#[derive(Clone, Copy)]
pub struct ReadableCase<'a> {
    pub bytes: &'a [u8],
    pub counts: Counts,
    pub ghost readable: { CaseReadable bytes.now counts },
}
