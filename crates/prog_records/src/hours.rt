// A stored hour at the desk. A record has a case directly followed by its proposal. Prints the desk's lines for it.
use crate::Record;
use std::io;

pub fn run(rt: &impl Print, record: Record) -> io::Result<()> {
    let mut out = [0u8; text_lines::ROOM];
    let n = text_lines::lines(record.first, &mut out).length;
    rt.write_all(&out[..n])
}
