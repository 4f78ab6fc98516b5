// What the program over stored inputs reads and prints: its input, the numbers of a record, the start of a buffer
// that is lent or was written, and an entry's answer. A read or write that fails is an error, with which the program
// ends.
#![tactic(auto)]

ghost use Rattle.std.specs.Prelude.{◌≡◌, ◌+◌, ◌≤◌, ◌<◌, length, take};
ghost use Rattle.std.specs.Io.{ReadsAtMost};
ghost use Rattle.rules.specs.Meaning.Layout.{u32_at};

use base_output::Written;
use bytes_read::Cursor;
use std::io;
use std::io::Read;

// Reads until the buffer is full or the input ends, and answers how many bytes stand at its start. No `for`: a read
// says how far it came. `read_exact` does not say how many bytes there were before the end.
pub fn read_full(input: &mut impl Read, buffer: &mut [u8]) -> io::Result<usize>
    ensures { ReadsAtMost result buffer.new }
{
    let mut done = 0;
    while done < buffer.len() {
        let n = input.read(&mut buffer[done..])?;
        if n == 0 {
            break;
        }
        done += n;
    }
    Ok(done)
}

// A number of a record, 32 bits, little-endian; 0, and no `Option`, where the input ends before it: `value_2` says so.
pub fn number_at(input: &[u8], at: usize) -> usize
    ensures upper_bound { result < 4294967296 }
    ensures value { at + 4 ≤ length input.now → result ≡ u32_at input.now at }
    ensures value_2 { length input.now < at + 4 → result ≡ 0 }
{
    let Some((number, _)) = Cursor::new(at).take::<u32>(input) else {
        return 0;
    };
    // `as`: std has no `From<u32>` for `usize`, and the `Err` of a `try_from` could not come.
    number as usize
}

// How many of the first n items there are.
fn there<T>(items: &[T], n: usize) -> usize
    ensures prefix_len { (result ≤ length items.now) × (result ≡ length (take result items.now)) }
    ensures value { take result items.now ≡ take n items.now }
{
    n.min(items.len())
}

// The first n items, or all where there are fewer.
pub fn first<T>(items: &[T], n: usize) -> &[T]
    ensures { result.now ≡ take n items.now }
{
    &items[..there(items, n)]
}

// The room that a run lends, or all where there is less. A run has an array of a fixed size and lends its start, since
// a record asks for the room and what an entry does with too little is tested too.
pub fn lent<T>(items: &mut [T], room: usize) -> &mut [T]
    ensures { result.now ≡ take room items.old }
{
    let k = there(items, room);
    &mut items[..k]
}

// The answer of an entry that writes into a lent output. No `Display`: `Written` is the C interface's, of a crate
// below, and this form is the records' own.
pub fn print_written(rt: &impl Print, v: Written) -> io::Result<()> {
    let Written {
        number,
        index,
        length,
    } = v;
    print!(rt; "{number} {index} {length}")
}

// Two digits for each byte. No `Display`: a crate can give none to a slice of bytes.
pub fn print_hex(rt: &impl Print, bytes: &[u8]) -> io::Result<()> {
    for b in bytes {
        print!(rt; "{b:02x}")?;
    }
    Ok(())
}
