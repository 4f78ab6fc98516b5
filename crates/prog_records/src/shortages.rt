// An hour through the entry of request S-14. A record has how many numbers are lent, a case and a proposal. Prints
// a line: number, index and length and, for an answer, its numbers.
use crate::Record;
use std::io;

// Room for every hour.
const ROOM: usize = 1280;

// The numbers of an answer; none is negative.
fn print_numbers(rt: &impl Print, numbers: &[i64]) -> io::Result<()> {
    for x in numbers {
        if *x < 0 {
            print!(rt; " negative")?;
        } else {
            print!(rt; " {x}")?;
        }
    }
    Ok(())
}

pub fn run(rt: &impl Print, record: Record) -> io::Result<()> {
    let Record {
        room,
        first: case,
        second: proposal,
        ..
    } = record;
    let mut buffer = [0i64; ROOM];
    let out = prog_common::lent(&mut buffer, room);
    let v = short_hour::hour_shortfalls(case, proposal, out);
    prog_common::print_written(rt, v)?;
    print_numbers(rt, prog_common::first(out, v.length))?;
    println!(rt)
}
