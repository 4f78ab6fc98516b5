// The judgement: 30 first, then what the driver finds in the hour. Only 0 and 26 write the report.
#![tactic(auto)]

ghost use Rattle.std.specs.Prelude.{◌≡◌, ◌<◌, ◌≤◌, length};
ghost use Rattle.rules.specs.Meaning.Layout.{report_room};
ghost use Rattle.rules.specs.Meaning.Hour.{case_of, plan_of, prices_of};
ghost use Rattle.rules.specs.Meaning.Verdict.{table};
ghost use Rattle.judge_stages.specs.Meaning.Found.{list_of};
ghost use Rattle.judge_hour.specs.Steps.Judged.{Reportable, Judged, verdict_of, concluded};
ghost use Rattle.judge_hour.specs.Meaning.HourJudged.{HourJudged, FamilyHourJudged};

use base_causes::Outcome;
use case_file::Files;
use judge_stages::{ValuedHour, find_in};
use report_file::write_report;

// The zone count as a byte of the report. `as`, here and below: the `Err` of a `try_from` could not come.
fn byte_of(zones: usize) -> u8
    requires { zones ≤ 16 }
    ensures { result ≡ zones }
{
    zones as u8
}

// The verdict's number as a byte of the report.
fn number_of(verdict: Outcome) -> u8
    requires { verdict.number < 256 }
    ensures { result ≡ verdict.number }
{
    verdict.number as u8
}

// The verdict; it writes the report of an hour that is valued. From here on it is no `Result`: C gets number and index,
// those of an hour that is accepted too.
fn conclude(found: Result<ValuedHour<'_>, Outcome>, report: &mut [u8]) -> Outcome
    requires reportable { Reportable found }
    requires report_room_in_bounds { report_room ≤ length report.old }
    ensures verdict { result ≡ verdict_of found.entry }
    ensures report { report.new ≡ concluded found.entry report.old }
{
    match found {
        Err(refusal) => refusal,
        Ok(valued) => {
            let prices = valued.prices;
            write_report(
                report,
                number_of(valued.verdict),
                byte_of(valued.hour.case.counts.zones),
                valued.totals,
                prices,
            );
            valued.verdict
        }
    }
}

pub const REPORT_ROOM: usize = layout::REPORT_ROOM;

// With a family list, or without one.
fn judge_with_families(
    case: &[u8],
    proposal: &[u8],
    families: Option<&[u8]>,
    report: &mut [u8],
) -> Outcome
    ensures { Judged (table (list_of families.entry) «case».now proposal.now (length report.old)
        (case_of «case».now) (plan_of «case».now proposal.now) (prices_of «case».now proposal.now))
        «case».now proposal.now report.old result report.new }
{
    if report.len() < REPORT_ROOM {
        return Outcome {
            number: 30,
            index: 0,
        };
    }
    conclude(find_in(Files::Apart, case, proposal, families), report)
}

// THE JUDGEMENT of a case and a proposal. `host` spells out what follows for a caller.
pub fn judge(case: &[u8], proposal: &[u8], report: &mut [u8]) -> Outcome
    ensures { HourJudged «case».now proposal.now report.old result report.new }
{
    judge_with_families(case, proposal, None, report)
}

// THE JUDGEMENT WITH A FAMILY LIST (S-11): rows 16 to 18 and 28 are asked too. The list only refuses: if it does
// not refuse the hour, the answer is the one without it.
pub fn judge_families(case: &[u8], proposal: &[u8], families: &[u8], report: &mut [u8]) -> Outcome
    ensures { FamilyHourJudged «case».now proposal.now families.now report.old result report.new }
{
    judge_with_families(case, proposal, Some(families), report)
}
