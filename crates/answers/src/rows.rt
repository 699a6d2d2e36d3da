// A row of a strip: no reference crosses to C, so a row is told by where it stands.
ghost use Rattle.std.specs.Prelude.{◌≡◌};
ghost use Rattle.answers.specs.Answers.{row_answer};

use refusal::{Fault, Outcome};
use row::Part;

// A row: `length` words of the strip, from the index `start` on; a refusal has 0 in both. C has no Result: number and place are 0 where there
// is no refusal.
#[repr(C)]
#[derive(Clone, Copy, Default)]
pub struct RowAnswer {
    pub number: u64,
    pub place: u64,
    pub start: u64,
    pub length: u64,
}

// Where a row stands or its refusal, in numbers.
impl From<Result<Part, Fault>> for RowAnswer {
    ghost from_gives = { λ answer numbers. numbers ≡ row_answer answer };

    fn from(answer: Result<Part, Fault>) -> RowAnswer {
        match answer {
            Ok(part) => RowAnswer {
                start: part.start as u64,
                length: part.count as u64,
                ..RowAnswer::default()
            },
            Err(fault) => {
                let outcome = Outcome::from(fault);
                RowAnswer {
                    number: outcome.number,
                    place: outcome.place as u64,
                    ..RowAnswer::default()
                }
            },
        }
    }
}
