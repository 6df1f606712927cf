// The calls on a lent state, behind the doors. A function here requires what its door has tested,
// and tests the rest.
#![tactic(auto)]

pub mod drawing;
pub mod finishes;
pub mod openings;
pub mod ready;
pub mod results;
pub mod starts;
pub mod totals;

use plan::refusal::Refusal;

// The answer of a step or result: refusal 0 and the word; or a refusal, and then the word is 0.
#[repr(C)]
#[derive(Clone, Copy)]
pub struct Answer {
    pub refusal: u64,
    pub word: u64,
}

impl From<Result<u64, Refusal>> for Answer {
    ghost use Rattle.std.specs.Prelude.{◌≡◌};
    ghost use Rattle.calls.specs.Told.{answer_of};

    ghost from_gives = { λ r answer. answer ≡ answer_of r };

    fn from(r: Result<u64, Refusal>) -> Answer
        ensures { result ≡ answer_of r }
    {
        match r {
            Ok(word) => Answer { refusal: 0, word },
            Err(refusal) => Answer {
                refusal: u64::from(refusal),
                word: 0,
            },
        }
    }
}
