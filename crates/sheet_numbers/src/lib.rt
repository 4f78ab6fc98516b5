// Decimal numbers read from text in one walk up to a mark: the sign, the size in units of a decimal, and whether a
// later decimal is not zero.
#![tactic(auto)]

ghost use Rattle.std.specs.Prelude.{◌≡◌, [], ◌+◌, ◌*◌, ◌-◌, ◌≤◌, length, drop};
ghost use Rattle.text_rules.specs.Meaning.Text.{value_from};
ghost use Rattle.sheet_numbers.specs.Meaning.Numeral.{starts, first_of};
ghost use Rattle.sheet_numbers.specs.Steps.Capped.{cap, capped};
ghost use Rattle.sheet_numbers.specs.Meaning.Scan.{Separator};
ghost use Rattle.sheet_numbers.specs.Steps.Scan.{stops, sign_length};
ghost use Rattle.sheet_numbers.specs.Meaning.Pieces.{piece_to, number_at};
ghost use Rattle.sheet_numbers.specs.Steps.Pieces.{whole_at, decimals_at};

// Where the next piece of a text starts. The text stands beside it, with the bound on the place: a cursor that held
// the text would put a reference into each answer, and no equation could say in a contract what the answer is. Slices
// in place of places took 4 in 100 longer.
#[derive(Clone, Copy)]
pub struct TextCursor {
    pub at: usize,
}

// A piece of a text up to its mark, and the cursor past the mark.
#[derive(Clone, Copy)]
pub struct Piece {
    pub end: usize,
    pub next: TextCursor,
}

// A number: its size in units of a decimal, cut at the cap, and whether a later decimal is not zero. The size holds
// with either answer, so it is no Option.
#[derive(Clone, Copy)]
pub struct Number {
    pub negative: bool,
    pub units: u64,
    pub finer: bool,
}

// The digits before a point: their value, cut at the cap, and where they end.
#[derive(Clone, Copy)]
struct Whole {
    value: u64,
    end: usize,
}

// The digits after it: the size with those that count, cut at the cap; how many of these are missing; whether a
// later one is not zero; where they end. The size holds with either answer, so it is no Option.
#[derive(Clone, Copy)]
struct Decimals {
    value: u64,
    missing: usize,
    finer: bool,
    end: usize,
}

// A size above every limit. Larger sizes are cut to it, so that no count of digits overflows. Three contracts ask
// that a size is cut; it has no type of its own, since the definitions `whole_at`, `decimals_at` and `held_number`
// speak of its number.
const CAP: u64 = 1_000_000_000;

// A size below it stays below the cap with one digit more.
const CAP_TENTH: u64 = CAP / 10;

// MARKS. Whether the mark is at a place.
fn starts_at(s: &[u8], i: usize, mark: u8) -> bool
    ensures { result ≡ starts mark (drop i s.now) }
{
    s.get(i) == Some(&mark)
}

// Whether the mark is at a place, or the text ends there. One function for both would take the answer past the end
// as a flag.
fn stops_at(s: &[u8], i: usize, mark: u8) -> bool
    ensures { result ≡ stops mark (drop i s.now) }
{
    s.get(i).is_none_or(|b| *b == mark)
}

// The piece that ends there; the cursor goes past its mark, if there is one.
fn piece_to(s: &[u8], end: usize) -> Piece
    requires { end ≤ length s.now }
    ensures { result ≡ piece_to (length s.now) end }
{
    Piece {
        end,
        next: TextCursor {
            at: (end + 1).min(s.len()),
        },
    }
}

// DIGITS. One digit more. The size is tested before it grows, so that the test and the product can run in parallel;
// where `min` cut it after that, a large sheet took 7 in 100 longer.
#[tactic(auto, unfolding(crate::specs::Steps::Capped::capped))]
fn with_digit(x: u64, b: u8) -> u64
    requires le_b { 48 ≤ b }
    requires b_bound { b ≤ 57 }
    ensures { result ≡ capped (10 * x + (b - 48)) }
{
    if x < CAP_TENTH {
        return 10 * x + u64::from(b - b'0');
    }
    CAP
}

// A size with n zeros after its digits.
fn padded(x: u64, n: usize) -> u64
    requires { x ≤ cap }
    ensures { result ≡ capped (value_from x (first_of n [])) }
{
    let mut value = x;
    for _ in 0..n {
        value = with_digit(value, b'0');
    }
    value
}

// A size cut at the cap.
fn held(x: u64) -> u64
    ensures { result ≡ capped x }
{
    x.min(CAP)
}

// The digits at a place.
fn read_whole(s: &[u8], at: usize) -> Whole
    requires { at ≤ length s.now }
    ensures { result ≡ whole_at s.now at }
{
    let mut value = 0;
    for i in at..s.len() {
        let b = s[i];
        if !b.is_ascii_digit() {
            return Whole { value, end: i };
        }
        value = with_digit(value, b);
    }
    Whole {
        value,
        end: s.len(),
    }
}

// The same after a point: the first k count after the digits of x. So few cannot overflow, so the size is cut at
// the cap once, at the end.
fn read_decimals(s: &[u8], at: usize, x: u64, k: usize) -> Decimals
    requires at_in_bounds { at ≤ length s.now }
    requires x_le_cap { x ≤ cap }
    requires k_bound { k ≤ 9 }
    ensures { result ≡ decimals_at s.now at x k }
{
    let mut value = x;
    let mut left = k;
    let mut finer = false;
    for i in at..s.len() {
        let b = s[i];
        if !b.is_ascii_digit() {
            return Decimals {
                value: held(value),
                missing: left,
                finer,
                end: i,
            };
        }
        if 0 < left {
            value = 10 * value + u64::from(b - b'0');
            left -= 1;
        } else {
            finer |= b != b'0';
        }
    }
    Decimals {
        value: held(value),
        missing: left,
        finer,
        end: s.len(),
    }
}

// Past the minus sign, if one stands there. It asks anew: with `at + usize::from(negative)` the processor waited for
// the value of the number before, and a sheet took up to 2.1 times as long.
fn past_sign(s: &[u8], at: usize) -> usize
    requires { at ≤ length s.now }
    ensures { result ≡ at + sign_length (drop at s.now) }
{
    if starts_at(s, at, b'-') {
        return at + 1;
    }
    at
}

// THE NEXT NUMBER of a text, up to a mark or the end of the text, in units of decimal k.
impl TextCursor {
    pub fn number(self, s: &[u8], mark: u8, k: usize) -> Option<(Number, Piece)>
        requires at_in_bounds { self.at ≤ length s.now }
        requires separator { Separator mark }
        requires k_bound { k ≤ 9 }
        ensures { result ≡ number_at k mark s.now self.at }
    {
        let at = self.at;
        let negative = starts_at(s, at, b'-');
        let start = past_sign(s, at);
        let whole = read_whole(s, start);
        let end = whole.end;
        if end <= start {
            return None;
        }
        if starts_at(s, end, b'.') {
            let next = end + 1;
            let decimals = read_decimals(s, next, whole.value, k);
            let last = decimals.end;
            if last <= next {
                return None;
            }
            if !stops_at(s, last, mark) {
                return None;
            }
            let units = padded(decimals.value, decimals.missing);
            let finer = decimals.finer;
            let number = Number {
                negative,
                units,
                finer,
            };
            return Some((number, piece_to(s, last)));
        }
        if !stops_at(s, end, mark) {
            return None;
        }
        let units = padded(whole.value, k);
        let number = Number {
            negative,
            units,
            finer: false,
        };
        Some((number, piece_to(s, end)))
    }
}
