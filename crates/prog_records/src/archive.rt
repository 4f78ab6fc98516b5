// A file through both entries of the archive (S-10). A record has the lent room and the file. Prints two lines, one
// for columning it and one for restoring it: number, index and length, and what was written, in hex.
use crate::Record;
use base_output::Written;
use std::io;

fn print_answer<F: FnOnce(&[u8], &mut [u8]) -> Written>(
    rt: &impl Print,
    name: &str,
    entry: F,
    record: Record,
) -> io::Result<()>
    requires { F.IsAlwaysCallable entry }
{
    let mut room = column_file::blank();
    let out = prog_common::lent(&mut room, record.room);
    let v = entry(record.first, out);
    print!(rt; "{name} ")?;
    prog_common::print_written(rt, v)?;
    print!(rt; " ")?;
    prog_common::print_hex(rt, prog_common::first(out, v.length))?;
    println!(rt)
}

pub fn run(rt: &impl Print, record: Record) -> io::Result<()> {
    print_answer(rt, "columned", column_file::columned, record)?;
    print_answer(rt, "restored", column_file::restored, record)
}
