// What was read of an hour, in one value. The type says that its case is readable and its proposal valid for it.
ghost use Rattle.rules.specs.Meaning.Hour.{case_of, plan_of};
ghost use Rattle.proposal_file.specs.Meaning.InRange.{VolumesInRange};
ghost use Rattle.proposal_file.specs.Meaning.Read.{HourReadFrom};

use crate::ProposalOpening;
use case_header::ReadableCase;

#[derive(Clone, Copy)]
pub struct HourRead<'a> {
    pub case: ReadableCase<'a>,
    pub proposal: &'a [u8],
    pub opening: ProposalOpening,
    pub ghost read: { HourReadFrom «case».bytes.now proposal.now «case».counts opening },
}

// An hour that was read, and whose volumes are within their orders' quantities: row 21 passed.
#[derive(Clone, Copy)]
pub struct FilledHour<'a> {
    pub hour: HourRead<'a>,
    pub ghost within: { VolumesInRange (case_of hour.case.bytes.now) (plan_of hour.case.bytes.now hour.proposal.now) },
}
