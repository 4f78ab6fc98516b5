// A table of causes in code: its answer, the test of a count, and two tests in one. A search over a cause's places
// answers the first place at which it holds, if there is one. Its meaning stands in specs/.
#![tactic(auto)]

ghost use Rattle.std.specs.Prelude.{◌≡◌, Err, ◌||◌, pos};
ghost use Rattle.base_integers.specs.Meaning.Ranges.{range, outside};

// What a table answers: the number of the first cause that holds, and its index; or 0 and 0.
#[derive(Clone, Copy)]
pub struct Outcome {
    pub number: u32,
    pub index: u32,
}

// A refusal by a row of a table, where an answer of any type is owed. The row is its number: that is what the table,
// every clause and C have, so an enum of rows would be turned back into it at once.
pub fn refused<T>(number: u32, index: u32) -> Result<T, Outcome>
    ensures { result ≡ Err (record { number = number; index = index }) }
{
    Err(Outcome { number, index })
}

// The test of every count.
#[tactic(auto, unfolding(base_integers::specs::Meaning::Ranges::outside))]
pub fn count_outside(least: usize, greatest: usize, count: usize) -> bool
    ensures { result ≡ outside (range (pos least) (pos greatest)) (pos count) }
{
    count < least || greatest < count
}

// Either of two tests. Not short-circuit: keeps a loop over it free of data-dependent exits.
pub fn either(a: bool, b: bool) -> bool
    ensures { result ≡ a || b }
{
    a | b
}
