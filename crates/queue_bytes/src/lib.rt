// The desk queue of request S-8 in 101 bytes that the caller lends: a post and a serve. specs/Meaning/Bytes.antt
// has the layout; any bytes are a queue, and all zeros the empty one. The methods take and return the bytes by
// value, since a proof knows the length only of an array by value.
#![tactic(auto)]

ghost use Rattle.std.specs.Prelude.{◌≡◌, List, [], ◌∷◌, ◌++◌, ℕ, ◌+◌, ◌*◌, ◌-◌, ◌<◌, drop};
ghost use Rattle.std.proofs.Math.Seq.{paste};
ghost use Rattle.queue_turns.specs.Meaning.Queue.{among, post_number, after_post, next, after_serve, serve_answer};
ghost use Rattle.queue_turns.specs.Steps.Invariant.{Hours};
ghost use Rattle.queue_bytes.specs.Meaning.Bytes.{hours_at, queue_of, bytes_after_post, bytes_after_serve};
ghost use Rattle.queue_bytes.specs.Steps.Cells.{waiting_of, Addable, counts_behind};
ghost use Rattle.queue_bytes.specs.Meaning.Answer.{given};
ghost use Rattle.queue_bytes.specs.Steps.Answers.{PostStep, ServeStep};
ghost use Rattle.queue_bytes.specs.Steps.Walks.{area_of};

// The answer of a serve: number 0 with area and hour, or 64 with zeros. The index is 0. C reads all four fields, so it
// is no `Result`.
#[repr(C)]
#[derive(Clone, Copy)]
pub struct Served {
    pub number: u32,
    pub index: u32,
    pub area: u32,
    pub hour: u32,
}

// Why a post is refused, by the number that the host gets.
#[derive(Clone, Copy)]
enum Refusal {
    UnknownArea = 61,
    UnknownHour = 62,
    WaitsAlready = 63,
}

// The hours that wait in one area: its cells, those with an hour first, and how many these are. An array with a
// count, since the free cells are stored too.
#[derive(Clone, Copy)]
pub struct Waiting {
    pub cells: [u8; 25],
    pub count: usize,
}

// The bytes of a queue.
#[derive(Clone, Copy)]
struct DeskQueue {
    bytes: [u8; 101],
}

// The area and the hour that a serve takes, and the queue without them.
#[derive(Clone, Copy)]
struct Taken {
    area: u32,
    hour: u32,
    left: DeskQueue,
}

// Whether a cell is among some cells. No early exit: keeps the loop free of data-dependent exits, so that it
// vectorises.
fn is_among(cells: [u8; 25], c: u8) -> bool
    ensures { result ≡ among c cells }
{
    let mut found = false;
    for cell in &cells {
        found |= *cell == c;
    }
    found
}

// Whether a cell counts after some others: it holds an hour, and none of them holds the same.
#[tactic(auto, unfolding(crate::specs::Steps::Cells::counts_behind))]
fn counts(cells: [u8; 25], c: u8) -> bool
    ensures { result ≡ counts_behind cells c }
{
    (1..=25).contains(&c) && !is_among(cells, c)
}

impl Waiting {
    // The hours with one more after them. There is always room: at most 25 hours differ.
    fn with(self, c: u8) -> Waiting
        requires { Addable self c }
        ensures { (hours : List ℕ) → Hours hours → self ≡ waiting_of hours → result ≡ waiting_of (hours ++ ((c - 1) ∷ [])) }
    {
        let mut cells = self.cells;
        let n = self.count;
        cells[n] = c;
        Waiting {
            cells,
            count: n + 1,
        }
    }

    // The cells without the first.
    fn moved_up(self) -> [u8; 25]
        ensures { result ≡ drop 1 self.cells ++ (0 ∷ []) }
    {
        let mut next = [0; 25];
        next[..24].copy_from_slice(&self.cells[1..]);
        next
    }
}

impl DeskQueue {
    // The hours that wait in an area. A local array and count: a `Waiting` that is taken and returned by value for
    // each cell took three times as long.
    fn waiting_in(self, area: usize) -> Waiting
        requires { area < 4 }
        ensures { result ≡ waiting_of (hours_at self.bytes area) }
    {
        let mut cells = [0; 25];
        let mut count = 0;
        for c in &self.bytes[25 * area..25 * area + 25] {
            if counts(cells, *c) {
                cells[count] = *c;
                count += 1;
            }
        }
        Waiting { cells, count }
    }

    // The queue with the cells of an area replaced.
    fn with_cells(self, area: usize, cells: [u8; 25]) -> DeskQueue
        requires { area < 4 }
        ensures { result.bytes ≡ paste self.bytes (25 * area) cells 25 }
    {
        let mut bytes = self.bytes;
        bytes[25 * area..25 * area + 25].copy_from_slice(&cells);
        DeskQueue { bytes }
    }

    // The area that the next serve takes from, if one has an hour waiting.
    fn next_area(self) -> Option<usize>
        ensures { result ≡ area_of (next (queue_of self.bytes)) }
    {
        let turn = usize::from(self.bytes[100] % 4);
        for k in 0..4 {
            let area = (turn + k) % 4;
            if 0 < self.waiting_in(area).count {
                return Some(area);
            }
        }
        None
    }

    fn post(self, area: u32, hour: u32) -> Result<DeskQueue, Refusal>
        ensures { PostStep area hour self.bytes result }
    {
        if 3 < area {
            return Err(Refusal::UnknownArea);
        }
        if 24 < hour {
            return Err(Refusal::UnknownHour);
        }
        let at = area as usize;
        let c = (hour + 1) as u8;
        let waiting = self.waiting_in(at);
        if is_among(waiting.cells, c) {
            return Err(Refusal::WaitsAlready);
        }
        Ok(self.with_cells(at, waiting.with(c).cells))
    }

    fn serve(self) -> Option<Taken>
        ensures { ServeStep self.bytes result }
    {
        let area = self.next_area()?;
        let waiting = self.waiting_in(area);
        let hour = waiting.cells[0] - 1;
        let mut left = self.with_cells(area, waiting.moved_up());
        left.bytes[100] = ((area + 1) % 4) as u8;
        Some(Taken {
            area: area as u32,
            hour: u32::from(hour),
            left,
        })
    }
}

// A post: 61 when the area is over 3, 62 when the hour is over 24, 63 when that area has it waiting already; else
// 0, and the hour waits. A refused post stores nothing. A number and no `Result`: C gets it.
#[tactic(auto, using(crate::proofs::Steps::Answers::refused_means))]
pub fn post(queue: &mut [u8; 101], area: u32, hour: u32) -> u32
    ensures number { result ≡ post_number area hour (queue_of queue.old) }
    ensures queue { queue_of queue.new ≡ after_post area hour (queue_of queue.old) }
    ensures bytes { queue.new ≡ bytes_after_post area hour queue.old }
{
    let bytes = *queue;
    match (DeskQueue { bytes }).post(area, hour) {
        Ok(longer) => {
            let bytes = longer.bytes;
            *queue = bytes;
            0
        }
        Err(refusal) => refusal as u32,
    }
}

// A serve: the next area in turn that has an hour waiting, and its earliest posted; 64 when there is none, and
// nothing is stored.
pub fn serve(queue: &mut [u8; 101]) -> Served
    ensures answer { result ≡ given (serve_answer (queue_of queue.old)) }
    ensures queue { queue_of queue.new ≡ after_serve (queue_of queue.old) }
    ensures bytes { queue.new ≡ bytes_after_serve queue.old }
{
    let bytes = *queue;
    let Some(taken) = (DeskQueue { bytes }).serve() else {
        return Served {
            number: 64,
            index: 0,
            area: 0,
            hour: 0,
        };
    };
    let bytes = taken.left.bytes;
    *queue = bytes;
    Served {
        number: 0,
        index: 0,
        area: taken.area,
        hour: taken.hour,
    }
}
