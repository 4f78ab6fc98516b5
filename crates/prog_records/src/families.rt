// An hour with families through the judgement (S-11). A record has a case, a proposal and a family list. Prints a
// line: number and index with the list, the report buffer in hex, and number and index without the list.
use crate::Record;
use base_causes::Outcome;
use layout::REPORT_ROOM;
use std::io;

// No `Display`: `Outcome` is of a crate below, and this form is the records' own.
fn print_verdict(rt: &impl Print, v: Outcome) -> io::Result<()> {
    let Outcome { number, index } = v;
    print!(rt; "{number} {index}")
}

pub fn run(rt: &impl Print, record: Record) -> io::Result<()> {
    let Record {
        first: case,
        second: proposal,
        third: families,
        ..
    } = record;
    let mut report = [0u8; REPORT_ROOM];
    print_verdict(
        rt,
        judge_hour::judge_families(case, proposal, families, &mut report),
    )?;
    print!(rt; " ")?;
    prog_common::print_hex(rt, &report)?;
    print!(rt; " without ")?;
    print_verdict(
        rt,
        judge_hour::judge(case, proposal, &mut [0u8; REPORT_ROOM]),
    )?;
    println!(rt)
}
