// A run of the desk queue (S-8), from an empty queue. A record has its events, each a letter and two numbers: `p`
// posts an hour of an area, `s` serves, and any other sets a byte to a value that no call would leave. Prints a
// line for each: the event, then for a post its number, and for a serve number, index, area and hour.
use crate::Record;
use bytes_read::Field;
use queue_bytes::Served;
use std::io;

// The bytes of an event.
const EVENT: usize = 9;

// The bytes of a queue.
const QUEUE: usize = 101;

enum Event {
    Post { area: u32, hour: u32 },
    Serve,
    Change { place: u32, byte: u32 },
}

impl Event {
    fn read(bytes: &[u8; EVENT]) -> Event {
        let first = u32::read(bytes, 1);
        let second = u32::read(bytes, 5);
        match bytes[0] {
            b'p' => Event::Post {
                area: first,
                hour: second,
            },
            b's' => Event::Serve,
            _ => Event::Change {
                place: first,
                byte: second,
            },
        }
    }

    fn act(self, rt: &impl Print, queue: &mut [u8; QUEUE]) -> io::Result<()> {
        match self {
            Event::Post { area, hour } => {
                let number = queue_bytes::post(queue, area, hour);
                println!(rt; "post {area} {hour}: {number}")
            }
            Event::Serve => {
                let Served {
                    number,
                    index,
                    area,
                    hour,
                } = queue_bytes::serve(queue);
                println!(rt; "serve: {number} {index} {area} {hour}")
            }
            Event::Change { place, byte } => {
                // `as`: std has no `From<u32>` for `usize`, and the `Err` of a `try_from` could not come.
                queue[(place % 101) as usize] = (byte % 256) as u8;
                println!(rt; "byte {place} {byte}")
            }
        }
    }
}

pub fn run(rt: &impl Print, record: Record) -> io::Result<()> {
    let mut queue = [0u8; QUEUE];
    let (events, _) = record.first.as_chunks::<EVENT>();
    for event in events {
        Event::read(event).act(rt, &mut queue)?;
    }
    Ok(())
}
