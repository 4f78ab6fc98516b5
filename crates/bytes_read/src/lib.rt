// The fields of a file: a cursor by value that gives a field and the cursor after it, and a field's value where its
// bytes are known to be there.
#![tactic(auto)]

ghost use Rattle.std.specs.Prelude.{◌≡◌, not, eqb, ◌&&◌, ◌+◌, ◌<◌, ◌≤◌, List, ℕ, length};
ghost use Rattle.rules.specs.Meaning.Layout.{u8_at, u16_at, u32_at, i32_at};
ghost use Rattle.bytes_read.specs.Meaning.Field.{u64_at, raw_at, mark_at, field_fits, field_of, cursor};
ghost use Rattle.bytes_read.specs.Meaning.Walk.{refused_at};

use base_causes::{Outcome, refused};
use base_measures::Raw;

// The three letters that open a file.
#[derive(Clone, Copy, PartialEq, Eq)]
pub struct Mark(pub u8, pub u8, pub u8);

impl Mark {
    pub fn differs(self, other: Mark) -> bool
        ensures { result ≡ not (eqb self.0 other.0 && eqb self.1 other.1 && eqb self.2 other.2) }
    {
        self != other
    }
}

// Where the next field stands.
#[derive(Clone, Copy)]
pub struct Cursor {
    pub at: usize,
}

// A KIND OF FIELD: how many bytes it has, and its value where they stand, the lowest byte first.
pub trait Field: Copy {
    ghost width: { ℕ };

    ghost value_at: { List ℕ → ℕ → Self };

    fn width() -> usize
        ensures { result ≡ width };

    fn read(s: &[u8], at: usize) -> Self
        requires { at + width ≤ length s.now }
        ensures { result ≡ value_at s.now at };
}

impl Field for u8 {
    ghost width = { 1 };

    ghost value_at = { u8_at };

    fn width() -> usize {
        size_of::<u8>()
    }

    #[tactic(auto, unfolding(rules::specs::Meaning::Layout::u8_at))]
    fn read(s: &[u8], at: usize) -> u8 {
        s[at]
    }
}

impl Field for u16 {
    ghost width = { 2 };

    ghost value_at = { u16_at };

    fn width() -> usize {
        size_of::<u16>()
    }

    #[tactic(auto, unfolding(rules::specs::Meaning::Layout::u16_at))]
    fn read(s: &[u8], at: usize) -> u16 {
        u16::from_le_bytes([s[at], s[at + 1]])
    }
}

impl Field for u32 {
    ghost width = { 4 };

    ghost value_at = { u32_at };

    fn width() -> usize {
        size_of::<u32>()
    }

    #[tactic(auto, unfolding(rules::specs::Meaning::Layout::u32_at))]
    fn read(s: &[u8], at: usize) -> u32 {
        u32::from_le_bytes([s[at], s[at + 1], s[at + 2], s[at + 3]])
    }
}

// Two words of 32 bits, the low one first.
impl Field for u64 {
    ghost width = { 8 };

    ghost value_at = { u64_at };

    fn width() -> usize {
        size_of::<u64>()
    }

    fn read(s: &[u8], at: usize) -> u64 {
        let low = u32::read(s, at);
        let high = u32::read(s, at + 4);
        u64::from(low) + layout::WORD_VALUES * u64::from(high)
    }
}

// Two's complement.
impl Field for i32 {
    ghost width = { 4 };

    ghost value_at = { i32_at };

    fn width() -> usize {
        u32::width()
    }

    #[tactic(auto, unfolding(rules::specs::Meaning::Layout::i32_at))]
    fn read(s: &[u8], at: usize) -> i32 {
        u32::read(s, at).cast_signed()
    }
}

// The same as a number of no measure yet.
impl Field for Raw {
    ghost width = { 4 };

    ghost value_at = { raw_at };

    fn width() -> usize {
        u32::width()
    }

    fn read(s: &[u8], at: usize) -> Raw {
        Raw::from(i32::read(s, at))
    }
}

impl Field for Mark {
    ghost width = { 3 };

    ghost value_at = { mark_at };

    fn width() -> usize {
        layout::MARK
    }

    fn read(s: &[u8], at: usize) -> Mark {
        Mark(u8::read(s, at), u8::read(s, at + 1), u8::read(s, at + 2))
    }
}

// Whether a field of this width is there.
fn field_fits(s: &[u8], at: usize, width: usize) -> bool
    ensures { result ≡ field_fits s.now at width }
{
    if s.len() < width {
        return false;
    }
    at <= s.len() - width
}

// THE WALK: the next field and the cursor past it, if the file has it.
impl Cursor {
    pub fn new(at: usize) -> Cursor
        ensures { result ≡ cursor at }
    {
        Cursor { at }
    }

    pub fn take<F: Field>(self, s: &[u8]) -> Option<(F, Cursor)>
        ensures { result ≡ field_of s.now self.at F.width (F.value_at s.now self.at) }
    {
        let at = self.at;
        let width = F::width();
        if !field_fits(s, at, width) {
            return None;
        }
        Some((F::read(s, at), Cursor { at: at + width }))
    }

    // The walk ends here: the refusal names the field at the cursor (S-2).
    pub fn refuse(self, number: u32) -> Result<Cursor, Outcome>
        requires { self.at < 4294967296 }
        ensures { result ≡ refused_at number self.at }
    {
        refused(number, self.at as u32)
    }

    // The same in a part of a file that begins at `start`.
    pub fn refuse_in(self, start: usize, number: u32) -> Result<Cursor, Outcome>
        requires { start + self.at < 4294967296 }
        ensures { result ≡ refused_at number (start + self.at) }
    {
        self.in_file(start).refuse(number)
    }

    // A place in a part that begins at `start`, as a place in the file.
    pub fn in_file(self, start: usize) -> Cursor
        requires { start + self.at < 4294967296 }
        ensures { result ≡ cursor (start + self.at) }
    {
        Cursor {
            at: start + self.at,
        }
    }
}
