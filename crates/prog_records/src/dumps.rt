// A dump through its entry (S-5). A record has a case and the dump. Prints a line: number, index and length and,
// for an answer, the number of the judgement of the case with that proposal.
use crate::Record;
use std::io;

// One byte less than the largest proposal, so that one dump finds the output short.
const ROOM: usize = 2572;

fn print_verdict(rt: &impl Print, case: &[u8], proposal: &[u8]) -> io::Result<()> {
    let mut report = [0u8; layout::REPORT_ROOM];
    let number = judge_hour::judge(case, proposal, &mut report).number;
    print!(rt; " judged {number}")
}

pub fn run(rt: &impl Print, record: Record) -> io::Result<()> {
    let Record {
        first: case,
        second: dump,
        ..
    } = record;
    let mut out = [0u8; ROOM];
    let v = dump_proposal::dump_proposal(case, dump, &mut out);
    prog_common::print_written(rt, v)?;
    if v.number == 0 {
        print_verdict(rt, case, prog_common::first(&out, v.length))?;
    }
    println!(rt)
}
