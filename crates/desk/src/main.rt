// The desk program: reads standard input to its end, a case directly followed by its proposal, and prints the lines
// for it.
#![tactic(auto)]

ghost use Rattle.std.specs.Prelude.{◌≤◌, IfOk, length};

use std::io;
use std::io::Read;

// Says on standard error what failed and why. A message that is lost changes nothing.
fn fail(rt: &impl Eprint, what: &str, why: io::Error) {
    let _ = eprintln!(rt; "{what}: {why}");
}

// Keeps the start of the input, reads on to its end and returns how much it kept. The buffer has more bytes than any
// legal hour, so the bytes dropped past it change no line (law `start-enough` of text_lines).
fn read_all(input: &mut impl Read, buffer: &mut [u8]) -> io::Result<usize>
    ensures { IfOk result (λ kept. kept ≤ length buffer.new) }
{
    let mut kept = 0;
    // No `for`: a read says how far it came. `read_exact` does not say how many bytes there were before the end.
    while kept < buffer.len() {
        let got = input.read(&mut buffer[kept..])?;
        if got == 0 {
            return Ok(kept);
        }
        kept += got;
    }
    io::copy(input, &mut io::sink())?;
    Ok(kept)
}

fn print(rt: &(impl Print + Eprint), input: &[u8]) {
    let mut out = [0u8; text_lines::ROOM];
    let n = text_lines::lines(input, &mut out).length;
    if let Err(why) = rt.write_all(&out[..n]) {
        fail(rt, "standard output", why);
    }
}

fn main(rt: HostRuntime) {
    // Of a fixed length: an input may be longer than any memory, and the program reads it to its end.
    let mut buffer = [0u8; 65536];
    match read_all(&mut rt.stdin(), &mut buffer) {
        Ok(kept) => print(&rt, &buffer[..kept]),
        Err(why) => fail(&rt, "standard input", why),
    }
}
