// The judgement as the host calls it, without a family list and with one (S-11): byte slices in, a number out.
ghost use Rattle.std.specs.Prelude.{◌≡◌, ◌+◌, ◌*◌, ◌/◌, ◌%◌, length};
ghost use Rattle.rules.specs.Meaning.Promise.{TotalsReported, Allowed, Accurate, GapWithin, HasLink, Covered};
ghost use Rattle.rules.specs.Meaning.Promise.{Best, CoveredInFull, FamilyTotalsReported, FamiliesKept};
ghost use Rattle.rules.specs.Meaning.Report.{buffer_after, family_buffer_after};
ghost use Rattle.rules.specs.Meaning.Verdict.{outcome, family_outcome};
ghost use Rattle.rules.specs.Meaning.AnnexPromise.{AnnexDemand3};
ghost use Rattle.rules.specs.Promised.PlainReport.{ReportOf};
ghost use Rattle.judge_hour.specs.Meaning.Packed.{packed};

use base_causes::Outcome;
use judge_hour::{judge, judge_families};

fn packed(v: Outcome) -> u64
    ensures { result ≡ v.number + 256 * v.index }
{
    u64::from(v.number) + 256 * u64::from(v.index)
}

// THE ENTRY: number + 256 * index of the verdict table, and every byte of the buffer afterwards, in plain numbers
// too (`bytes`). For an hour answered 0, demand 3 holds in the numbers of the report's bytes, by document 01's
// rules and in the Annex's terms. S-6: coverage is promised for an hour with a link; for an hour without one,
// accuracy compares only with clearings of LTA share 0 (`Clearing`).
#[unsafe(no_mangle)]
pub extern "C" fn lta_judge(case: &[u8], proposal: &[u8], report: &mut [u8]) -> u64
    ensures outcome { result ≡ packed (outcome «case».now proposal.now (length report.old)) }
    ensures number { result % 256 ≡ (outcome «case».now proposal.now (length report.old)).number }
    ensures index { result / 256 ≡ (outcome «case».now proposal.now (length report.old)).index }
    ensures report { report.new ≡ buffer_after «case».now proposal.now report.old }
    ensures bytes { ReportOf (result % 256) «case».now proposal.now report.old report.new }
    ensures totals { TotalsReported «case».now proposal.now (length report.old) report.new }
    ensures allowed { result ≡ 0 → Allowed «case».now proposal.now }
    ensures accuracy { result ≡ 0 → Accurate «case».now report.new }
    ensures gap { result ≡ 0 → GapWithin «case».now report.new }
    ensures coverage { result ≡ 0 → HasLink «case».now → Covered report.new }
    ensures best { result ≡ 0 → Best «case».now report.new }
    ensures covered_in_full { result ≡ 0 → HasLink «case».now → CoveredInFull report.new }
    ensures annex { result ≡ 0 → AnnexDemand3 «case».now proposal.now report.new }
{
    let v = judge(case, proposal, report);
    packed(v)
}

// THE ENTRY WITH A FAMILY LIST (S-11): the same with rows 16 to 18 and 28; an empty list is 16. An accepted hour
// keeps what an hour without a list keeps; its accuracy rule compares with clearings free of families. Also, each
// child is accepted in at most the fraction of its parent. An entry of its own: C calls it by its name.
#[unsafe(no_mangle)]
pub extern "C" fn lta_judge_families(
    case: &[u8],
    proposal: &[u8],
    families: &[u8],
    report: &mut [u8],
) -> u64
    ensures outcome { result ≡ packed (family_outcome «case».now proposal.now families.now
        (length report.old)) }
    ensures number { result % 256 ≡ (family_outcome «case».now proposal.now families.now
        (length report.old)).number }
    ensures index { result / 256 ≡ (family_outcome «case».now proposal.now families.now
        (length report.old)).index }
    ensures report { report.new ≡ family_buffer_after «case».now proposal.now families.now
        report.old }
    ensures bytes { ReportOf (result % 256) «case».now proposal.now report.old report.new }
    ensures totals { FamilyTotalsReported «case».now proposal.now families.now
        (length report.old) report.new }
    ensures families { result ≡ 0 → FamiliesKept «case».now proposal.now families.now }
    ensures allowed { result ≡ 0 → Allowed «case».now proposal.now }
    ensures accuracy { result ≡ 0 → Accurate «case».now report.new }
    ensures gap { result ≡ 0 → GapWithin «case».now report.new }
    ensures coverage { result ≡ 0 → HasLink «case».now → Covered report.new }
    ensures best { result ≡ 0 → Best «case».now report.new }
    ensures covered_in_full { result ≡ 0 → HasLink «case».now → CoveredInFull report.new }
    ensures annex { result ≡ 0 → AnnexDemand3 «case».now proposal.now report.new }
{
    let v = judge_families(case, proposal, families, report);
    packed(v)
}
