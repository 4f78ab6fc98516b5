// Net positions, zone prices and pairs through the entries of requests S-3 and S-13. A record has how many numbers
// of scratch are lent to the wide entry and to the smaller one; net positions and prices, 64 bits each, of which
// the highest is the sign; and the pairs. Prints one line, first for the wide scratch and then for the smaller.
// Each part has number, index, 1 for a yes or 0, the total in tenths, and how many numbers at the start of the
// scratch are zero; before the call all are 7.
ghost use Rattle.std.specs.Prelude.{◌≤◌};

use crate::Record;
use base_measures::Measure;
use flow_intuitive::{Carried, SCRATCH, SMALL_SCRATCH};
use prog_common::{first, lent};
use std::io;

const ROOM: usize = 330;

const SMALL_ROOM: usize = 102;

// One more than there may be.
const ZONES: usize = 17;

// The highest of 64 bits.
const SIGN: u64 = 9223372036854775808;

// Sign and magnitude, which no conversion of the library reads.
fn signed(x: u64) -> i64 {
    let size = (x % SIGN).cast_signed();
    if x < SIGN { size } else { -size }
}

fn numbers(bytes: &[u8]) -> [i64; ZONES] {
    let mut list = [0i64; ZONES];
    let (words, _) = bytes.as_chunks::<8>();
    for (place, word) in list.iter_mut().zip(words) {
        *place = signed(u64::from_le_bytes(*word));
    }
    list
}

// What both entries are asked.
#[derive(Clone, Copy)]
struct Exchange<'a> {
    net: &'a [i64],
    prices: &'a [i64],
    pairs: &'a [u8],
}

// The entry that wants N numbers of scratch.
fn print_answer<const N: usize>(
    rt: &impl Print,
    exchange: Exchange,
    scratch: &mut [i64],
) -> io::Result<()>
    requires { 96 ≤ N }
{
    let Exchange { net, prices, pairs } = exchange;
    let Carried {
        number,
        index,
        intuitive,
        total,
    } = flow_intuitive::intuitive_in(net, prices, pairs, scratch, N);
    let tenths = total.bits().0;
    let zeros = scratch.iter().take_while(|x| **x == 0).count();
    print!(rt; "{number} {index} {intuitive} {tenths} {zeros}")
}

pub fn run(rt: &impl Print, record: Record) -> io::Result<()> {
    let net = numbers(record.first);
    let prices = numbers(record.second);
    let exchange = Exchange {
        net: first(&net, record.first.len() / 8),
        prices: first(&prices, record.second.len() / 8),
        pairs: record.third,
    };
    let mut scratch = [7i64; ROOM];
    print_answer::<SCRATCH>(rt, exchange, lent(&mut scratch, record.number))?;
    print!(rt; "; ")?;
    let mut small_scratch = [7i64; SMALL_ROOM];
    print_answer::<SMALL_SCRATCH>(rt, exchange, lent(&mut small_scratch, record.room))?;
    println!(rt)
}
