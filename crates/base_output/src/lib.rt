// The answer of an entry that writes into a lent output: how much it wrote, or its refusal.
#![tactic(auto)]

ghost use Rattle.std.specs.Prelude.{◌≡◌};
ghost use Rattle.base_output.specs.Meaning.Output.{written_of};

use base_causes::Outcome;

// The number and index of the refusal and length 0; or 0 and 0 and the length of what was written. A margin sheet
// may have more lines than 32 bits count, so the index is as wide as a length. C reads all three fields, so it is no
// `Result`.
#[repr(C)]
#[derive(Clone, Copy)]
pub struct Written {
    pub number: u32,
    pub index: usize,
    pub length: usize,
}

pub fn refused(number: u32, index: usize) -> Written
    ensures { result ≡ record { number = number; index = index; length = 0 } }
{
    Written {
        number,
        index,
        length: 0,
    }
}

// An entry's answer as C reads it: the length of what was written, or the refusal.
impl From<Result<usize, Outcome>> for Written {
    ghost from_gives = { λ r w. w ≡ written_of r };

    fn from(answer: Result<usize, Outcome>) -> Written {
        match answer {
            Ok(length) => Written {
                number: 0,
                index: 0,
                length,
            },
            Err(refusal) => refused(refusal.number, refusal.index as usize),
        }
    }
}
