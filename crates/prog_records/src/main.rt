// Stored inputs through the entries, one record after another from standard input. A record is a letter, two numbers
// and the lengths of three parts, each 32 bits little-endian, and then the parts. `Entry` says which entry a letter is
// for, and each module which numbers and parts its entry takes and what is printed. Each entry is called as C calls it,
// so its answer has a number and is no `Result`.
#![tactic(auto)]

pub mod archive;
pub mod dumps;
pub mod exchanges;
pub mod families;
pub mod hours;
pub mod queues;
pub mod sheets;
pub mod shortages;

use prog_common::number_at;
use std::io;
use std::io::Read;

// The bytes of a record before its parts, and where its numbers and the lengths of the parts stand there.
const OPENING: usize = 21;

const NUMBER: usize = 1;

const ROOM: usize = 5;

const FIRST: usize = 9;

const SECOND: usize = 13;

const THIRD: usize = 17;

// The bytes that the parts may have together; longer parts are cut, and then do not run.
const PARTS: usize = 65536;

// A proved loop must end, but an input need not: this is more records than any input has.
const RECORDS: usize = 4294967296;

// The entry that a record is for.
#[derive(Clone, Copy)]
pub enum Entry {
    Text,
    Archive,
    Dump,
    Families,
    Shortfalls,
    Hour,
    Queue,
    Sheet,
    Exchange,
}

impl Entry {
    fn of_letter(letter: u8) -> Option<Entry> {
        match letter {
            b't' => Some(Entry::Text),
            b'c' => Some(Entry::Archive),
            b'd' => Some(Entry::Dump),
            b'f' => Some(Entry::Families),
            b's' => Some(Entry::Shortfalls),
            b'h' => Some(Entry::Hour),
            b'q' => Some(Entry::Queue),
            b'm' => Some(Entry::Sheet),
            b'i' => Some(Entry::Exchange),
            _ => None,
        }
    }
}

// A record; `None` for a letter that no entry has.
#[derive(Clone, Copy)]
pub struct Record<'a> {
    pub entry: Option<Entry>,
    pub number: usize,
    pub room: usize,
    pub first: &'a [u8],
    pub second: &'a [u8],
    pub third: &'a [u8],
}

impl<'a> Record<'a> {
    // The parts are cut by their lengths. No record where the input ends before they do.
    fn cut(opening: &[u8; OPENING], parts: &'a [u8]) -> Option<Record<'a>> {
        let (first, rest) = parts.split_at_checked(number_at(opening, FIRST))?;
        let (second, rest) = rest.split_at_checked(number_at(opening, SECOND))?;
        let (third, _) = rest.split_at_checked(number_at(opening, THIRD))?;
        Some(Record {
            entry: Entry::of_letter(opening[0]),
            number: number_at(opening, NUMBER),
            room: number_at(opening, ROOM),
            first,
            second,
            third,
        })
    }

    // A text is printed as it is: a name, or the heading of what follows.
    fn run(self, rt: &impl Print) -> io::Result<()> {
        match self.entry {
            Some(Entry::Text) => rt.write_all(self.first),
            Some(Entry::Archive) => archive::run(rt, self),
            Some(Entry::Dump) => dumps::run(rt, self),
            Some(Entry::Families) => families::run(rt, self),
            Some(Entry::Shortfalls) => shortages::run(rt, self),
            Some(Entry::Hour) => hours::run(rt, self),
            Some(Entry::Queue) => queues::run(rt, self),
            Some(Entry::Sheet) => sheets::run(rt, self),
            Some(Entry::Exchange) => exchanges::run(rt, self),
            None => println!(rt; "no entry"),
        }
    }
}

fn parts_length(opening: &[u8; OPENING]) -> usize {
    number_at(opening, FIRST) + number_at(opening, SECOND) + number_at(opening, THIRD)
}

// Reads the parts of a record and runs it. The buffer is the first thing that this does: in `run_record`, after a way
// out, it would be made zero twice, which takes as long as a short record.
fn run_parts(rt: &impl Print, input: &mut impl Read, opening: &[u8; OPENING]) -> io::Result<()> {
    let mut buffer = [0u8; PARTS];
    let parts = prog_common::lent(&mut buffer, parts_length(opening));
    let kept = prog_common::read_full(input, parts)?;
    match Record::cut(opening, prog_common::first(&buffer, kept)) {
        Some(record) => record.run(rt),
        None => Ok(()),
    }
}

// Reads a record and runs it; whether its opening was there.
fn run_record(rt: &impl Print, input: &mut impl Read) -> io::Result<bool> {
    let mut opening = [0u8; OPENING];
    if prog_common::read_full(input, &mut opening)? < OPENING {
        return Ok(false);
    }
    run_parts(rt, input, &opening)?;
    Ok(true)
}

fn main(rt: HostRuntime) -> io::Result<()> {
    let mut input = rt.stdin();
    for _ in 0..RECORDS {
        if !run_record(&rt, &mut input)? {
            break;
        }
    }
    Ok(())
}
