// THE DRIVER: what rows 1 to 26 of the verdict table find in an hour. `find_in`, at the end, reads the case (1 to
// 8) and cuts it from its proposal if the two are joined. `find_after` then asks three stages in the table's order:
// `read` (9 to 18), `clear` (21, 28, 22, 27, 23) and `value` (24 to 26). The first refusal ends the search. A stage
// may use what the stages before it established.
#![tactic(auto)]

ghost use Rattle.std.specs.Prelude.{◌≡◌, Err, not, cond, ◌&&◌, ◌<◌, ◌≤◌, eqb, pos, IfOk, IfErr};
ghost use Rattle.std.specs.Option.{ForSome};
ghost use Rattle.std.proofs.Math.Option.{none, some};
ghost use Rattle.std.specs.Int.Signed.{lt_z};
ghost use Rattle.base_integers.specs.Meaning.Ranges.{is_zero};
ghost use Rattle.base_integers.specs.Meaning.Sums.{sum_to};
ghost use Rattle.base_integers.specs.Meaning.Machine.{SumsFit};
ghost use Rattle.rules.specs.Meaning.Hour.{case_of, plan_of, prices_of};
ghost use Rattle.rules.specs.Meaning.Verdict.{fraction_causes};
ghost use Rattle.base_causes.specs.Meaning.Causes.{verdict, refusal};
ghost use Rattle.case_file.specs.declared.Files.TheVariants.{Joined};
ghost use Rattle.case_file.specs.Steps.Files.{proposal_start};
ghost use Rattle.base_measures.specs.Meaning.TenthsHold.{tenths_at};
ghost use Rattle.judge_stages.specs.Meaning.Found.{Finds, FindsIn, HourCleared, hour_causes, list_of};
ghost use Rattle.judge_stages.specs.Steps.Found.{admitted_causes, read_causes, clear_causes, value_causes, balance_answer};
ghost use Rattle.judge_stages.specs.Steps.Listed.{list_read};

mod reading;

use base_causes::{Outcome, refused};
use base_measures::{Grains, Microcents, Share, Tenths};
use case_branches::ptdf_table;
use case_file::{Files, read_case};
use case_header::ReadableCase;
use family_fractions::{ListedHour, first_over_parent};
use family_list::{ReadableFamilies, read_families};
use judge_clearing::{link_sums, net_sum, order_sums};
use judge_network::branch_sums;
use judge_totals::{PricedHour, totals, zone_sums};
use proposal_file::{FilledHour, HourRead, read_proposal};
use reading::Reading;
use report_file::Totals;

// What `clear` leaves of an hour: net positions, flow-based parts and welfare.
#[derive(Clone, Copy)]
pub struct Cleared {
    pub nets: [Tenths; layout::ZONES],
    pub parts: [Tenths; layout::ZONES],
    pub welfare: Microcents,
}

// A valued hour: its verdict, 0 or 26, what was read, its clearing, prices and totals. What `clear` leaves is kept
// whole, so its arrays are copied once. The verdict stays a row's number: the report's byte has it, and C.
#[derive(Clone, Copy)]
pub struct ValuedHour<'a> {
    pub verdict: Outcome,
    pub hour: HourRead<'a>,
    pub cleared: Cleared,
    pub prices: [Grains; layout::ZONES],
    pub totals: Totals,
}

// A row that fails at a place.
fn refused_at<T>(number: u32, place: usize) -> Result<T, Outcome>
    requires { place < 4294967296 }
    ensures { result ≡ Err (verdict number place) }
{
    refused(number, place as u32)
}

// Rows 15 to 18: a tolerance too wide to be accepted (S-12), and the family list, where there is one.
fn admit<'a>(
    case: ReadableCase<'_>,
    families: Option<&'a [u8]>,
) -> Result<Option<ReadableFamilies<'a>>, Outcome>
    ensures refused { IfErr result (λ o. refusal (admitted_causes (list_of families.entry)
        (case_of «case».entry.bytes.now)) ≡ some o) }
    ensures passed { IfOk result (λ _. refusal (admitted_causes (list_of families.entry)
        (case_of «case».entry.bytes.now)) ≡ none) }
    ensures list { IfOk result (λ read. list_read read ≡ list_of families.entry) }
    ensures orders { IfOk result (λ read. ForSome read (λ f. f.orders ≡ «case».entry.counts.orders)) }
{
    let Some(_) = case.counts.tolerance.accepted_tolerance() else {
        return refused(15, 0);
    };
    let Some(list) = families else {
        return Ok(None);
    };
    Ok(Some(read_families(list, case.counts.orders)?))
}

// ROWS 9 TO 18, of a readable case: the proposal, then the tolerance and the family list.
fn read<'a>(
    case: ReadableCase<'a>,
    proposal: &'a [u8],
    families: Option<&'a [u8]>,
) -> Result<Reading<'a>, Outcome>
    ensures refused { IfErr result (λ o. refusal (read_causes (list_of families.entry) «case».entry.bytes.now
        proposal.now) ≡ some o) }
    ensures passed { IfOk result (λ _. refusal (read_causes (list_of families.entry) «case».entry.bytes.now
        proposal.now) ≡ none) }
    ensures case_is { IfOk result (λ read. read.hour.case.bytes.now ≡ «case».entry.bytes.now) }
    ensures proposal_is { IfOk result (λ read. read.hour.proposal.now ≡ proposal.now) }
    ensures list { IfOk result (λ read. list_read read.families ≡ list_of families.entry) }
{
    let opening = read_proposal(case, proposal)?;
    let families = admit(case, families)?;
    let hour = HourRead {
        case,
        proposal,
        opening,
    };
    Ok(Reading { hour, families })
}

// Row 28, where there is a family list, for a proposal that passes row 21.
fn hold_families(filled: FilledHour<'_>, list: Option<ReadableFamilies<'_>>) -> Result<(), Outcome>
    requires { ForSome list (λ f. f.orders ≡ filled.hour.case.counts.orders) }
    ensures refused { IfErr result (λ o. refusal (fraction_causes (list_read list.entry)
        (case_of filled.entry.hour.case.bytes.now)
        (plan_of filled.entry.hour.case.bytes.now filled.entry.hour.proposal.now)) ≡ some o) }
    ensures passed { IfOk result (λ _. refusal (fraction_causes (list_read list.entry)
        (case_of filled.entry.hour.case.bytes.now)
        (plan_of filled.entry.hour.case.bytes.now filled.entry.hour.proposal.now)) ≡ none) }
{
    let Some(families) = list else {
        return Ok(());
    };
    let listed = ListedHour { filled, families };
    if let Some(i) = first_over_parent(listed) {
        return refused_at(28, i);
    }
    Ok(())
}

// Row 22: the net positions do not add up to zero.
fn is_unbalanced(nets: [Tenths; layout::ZONES], zones: usize) -> bool
    requires zones_bound { zones ≤ 16 }
    requires sums_fit { SumsFit (λ z. tenths_at nets z) zones }
    ensures { result ≡ not (is_zero (sum_to zones (λ z. tenths_at nets z))) }
{
    !net_sum(nets, zones).is_zero()
}

// Row 27 (S-6): a share above 0 in an hour without links, which has no LTA domain.
fn share_without_link(links: usize, share: Share) -> bool
    ensures { result ≡ (eqb links 0 && lt_z (pos 0) share.0) }
{
    links == 0 && share.is_above_zero()
}

// Rows 22 and 27: the balance, and the share without links.
fn hold_balance(hour: HourRead<'_>, nets: [Tenths; layout::ZONES]) -> Result<(), Outcome>
    requires zones_bound { hour.case.counts.zones ≤ 16 }
    requires sums_fit { SumsFit (λ z. tenths_at nets z) hour.case.counts.zones }
    ensures { result ≡ balance_answer (not (is_zero (sum_to hour.entry.case.counts.zones (λ z. tenths_at nets z))))
        (eqb hour.entry.case.counts.links 0 && lt_z (pos 0) hour.entry.opening.share.0) }
{
    let unbalanced = is_unbalanced(nets, hour.case.counts.zones);
    let no_domain = share_without_link(hour.case.counts.links, hour.opening.share);
    if unbalanced {
        return refused(22, 0);
    }
    if no_domain {
        return refused(27, 0);
    }
    Ok(())
}

// ROWS 21, 28, 22, 27 AND 23: the orders and the links, with net positions, flow-based parts and welfare.
fn clear(reading: Reading<'_>) -> Result<Cleared, Outcome>
    ensures refused { IfErr result (λ o. refusal (clear_causes (list_read reading.entry.families)
        (case_of reading.entry.hour.case.bytes.now)
        (plan_of reading.entry.hour.case.bytes.now reading.entry.hour.proposal.now)) ≡ some o) }
    ensures passed { IfOk result (λ _. refusal (clear_causes (list_read reading.entry.families)
        (case_of reading.entry.hour.case.bytes.now)
        (plan_of reading.entry.hour.case.bytes.now reading.entry.hour.proposal.now)) ≡ none) }
    ensures cleared { IfOk result (λ cleared. HourCleared (case_of reading.entry.hour.case.bytes.now)
        (plan_of reading.entry.hour.case.bytes.now reading.entry.hour.proposal.now) cleared) }
{
    let hour = reading.hour;
    // 21, the volumes; 28, the families. Here and below a match and no `or_else`: that a place fits 32 bits is known
    // at the match, and a closure would have to be told it.
    let sums = match order_sums(hour) {
        Ok(sums) => sums,
        Err(i) => return refused_at(21, i),
    };
    let filled = FilledHour { hour };
    hold_families(filled, reading.families)?;
    // 22, the balance; 27, the share without links; 23, the links.
    let nets = sums.nets;
    hold_balance(hour, nets)?;
    let parts = match link_sums(filled, nets) {
        Ok(parts) => parts,
        Err(l) => return refused_at(23, l),
    };
    Ok(Cleared {
        nets,
        parts,
        welfare: sums.welfare,
    })
}

// Row 26: its number where the gap exceeds the tolerance, else 0.
fn gap_verdict(gap: Microcents, tolerance: Microcents) -> u32
    ensures { result ≡ cond (lt_z tolerance.0 gap.0) 26 0 }
{
    if tolerance < gap { 26 } else { 0 }
}

// ROWS 24 TO 26: the branches, the zone prices and the gap, with all that is found in a valued hour.
fn value(hour: HourRead<'_>, cleared: Cleared) -> Result<ValuedHour<'_>, Outcome>
    requires { HourCleared (case_of hour.case.bytes.now) (plan_of hour.case.bytes.now hour.proposal.now) cleared }
    ensures { Finds (value_causes (case_of hour.entry.case.bytes.now)
        (plan_of hour.entry.case.bytes.now hour.entry.proposal.now)
        (prices_of hour.entry.case.bytes.now hour.entry.proposal.now)) hour.entry.case.bytes.now
        hour.entry.proposal.now result }
{
    let filled = FilledHour { hour };
    let table = ptdf_table(hour.case);
    let network = match branch_sums(filled, table, cleared.parts) {
        Ok(network) => network,
        Err(m) => return refused_at(24, m),
    };
    let prices = network.prices;
    let rent = match zone_sums(cleared.nets, prices, hour.case.counts.zones) {
        Ok(rent) => rent,
        Err(z) => return refused_at(25, z),
    };
    let priced = PricedHour { hour, prices };
    let totals = totals(priced, cleared.welfare, network.total, rent);
    let number = gap_verdict(totals.gap, hour.case.counts.tolerance);
    Ok(ValuedHour {
        verdict: Outcome { number, index: 0 },
        hour,
        cleared,
        prices,
        totals,
    })
}

// The hour of a readable case: the table's rows from 9 on, in order, stage by stage.
fn find_after<'a>(
    case: ReadableCase<'a>,
    proposal: &'a [u8],
    families: Option<&'a [u8]>,
) -> Result<ValuedHour<'a>, Outcome>
    ensures { Finds (hour_causes (list_of families.entry) «case».entry.bytes.now proposal.now)
        «case».entry.bytes.now proposal.now result }
{
    // 9 to 14, the proposal; 15, the tolerance; 16 to 18, the family list where there is one (S-11).
    let reading = read(case, proposal, families)?;
    // 21, the volumes; 28, the families; 22, the balance; 27, the share without links; 23, the links.
    let cleared = clear(reading)?;
    // 24, the branches; 25, the zone prices; 26, the gap.
    value(reading.hour, cleared)
}

// Where the proposal begins: after the case if they are joined.
fn proposal_start(files: Files, end: usize) -> usize
    ensures { result ≡ proposal_start files end }
{
    match files {
        Files::Apart => 0,
        Files::Joined => end,
    }
}

// THE HOUR, from its first byte, with a family list (S-11) or without one. If case and proposal are joined, the
// input is lent as both, and its header, which says where to cut, is read once.
pub fn find_in<'a>(
    files: Files,
    case: &'a [u8],
    proposal: &'a [u8],
    families: Option<&'a [u8]>,
) -> Result<ValuedHour<'a>, Outcome>
    requires { files ≡ Joined → proposal.now ≡ «case».now }
    ensures { FindsIn files (list_of families.entry) «case».now proposal.now result }
{
    // 1 to 8, the case. Reborrow: passing `case` directly makes LLVM reload the slice as one 16-byte load right
    // after two 8-byte stores, which stalls the processor.
    let counts = read_case(files, &case[..])?;
    let end = counts.demanded();
    let start = proposal_start(files, end);
    let readable = ReadableCase {
        bytes: &case[..end],
        counts,
    };
    find_after(readable, &proposal[start..], families)
}

// The same for two files, without a family list.
pub fn find<'a>(case: &'a [u8], proposal: &'a [u8]) -> Result<ValuedHour<'a>, Outcome>
    ensures { Finds (hour_causes none «case».now proposal.now) «case».now proposal.now result }
{
    find_in(Files::Apart, case, proposal, None)
}
