// A margin sheet through its entry (S-1). A record has the zone count, the room of the output and the sheet. Prints
// number, index and length, then a line for each branch with its margin in tenths and its PTDFs in
// hundred-thousandths.
ghost use Rattle.std.specs.Prelude.{◌<◌};

use crate::Record;
use std::io;

// Room for every sheet.
const ROOM: usize = 4352;

// The numbers written, n to a line.
fn print_numbers(rt: &impl Print, out: &[u8], n: usize) -> io::Result<()>
    requires { 0 < n }
{
    let (numbers, _) = out.as_chunks::<4>();
    for (j, bytes) in numbers.iter().enumerate() {
        let x = i32::from_le_bytes(*bytes);
        if j % n == n - 1 {
            println!(rt; "{x}")?;
        } else {
            print!(rt; "{x} ")?;
        }
    }
    Ok(())
}

pub fn run(rt: &impl Print, record: Record) -> io::Result<()> {
    let Record {
        number: zones,
        room,
        first: sheet,
        ..
    } = record;
    let mut buffer = [0u8; ROOM];
    let out = prog_common::lent(&mut buffer, room);
    let v = sheet_branches::sheet_branches(sheet, zones, out);
    prog_common::print_written(rt, v)?;
    println!(rt)?;
    if zones <= layout::ZONES {
        print_numbers(rt, prog_common::first(out, v.length), zones + 1)?;
    }
    Ok(())
}
