// The refusal list: why a call turns its input away, with the number and the place that it reports.
#![tactic(auto)]

ghost use Rattle.std.specs.Prelude.{◌≡◌};
ghost use Rattle.refusal.specs.Refusals.{outcome_of};
ghost use Rattle.refusal.specs.Faults.{◌found_at◌};
ghost use Rattle.refusal.specs.Verdicts.{accepted, require, report_of};

// One case for each line of the list; the list's own words stand in specs/Refusals.antt.
#[derive(Clone, Copy)]
pub enum Refusal {
    BadSize,
    BadKey,
    WrongLength,
    SmallOutput,
    NotANumber,
    TooBright,
    UnexpectedWord,
    InvalidChannel,
    DarkPage,
    BadWhite,
    NoSuchRow,
    UnlikeBands,
}

// What a call reports; C takes it as it is.
#[repr(C)]
#[derive(Clone, Copy)]
pub struct Outcome {
    pub number: u64,
    pub place: usize,
}

// What a check that turns its input away answers: a refusal, and the index where it was found. The index of a refusal that has place 0 says
// nothing. No index in the cases of `Refusal`: a number that is decoded alone stands at none.
#[derive(Clone, Copy)]
pub struct Fault {
    pub refusal: Refusal,
    pub index: usize,
}

impl Refusal {
    // This refusal, found at the element or word of this index.
    pub fn at(self, index: usize) -> Fault
        ensures { result ≡ self found_at index }
    {
        Fault {
            refusal: self,
            index,
        }
    }
}

// The number and place of a refusal that was found at the element or word of this index.
pub fn outcome_of(refusal: Refusal, index: usize) -> Outcome
    ensures { result ≡ outcome_of refusal index }
{
    // The numbers are written out, and are no discriminants: the edit too_bright_is_5 gives one twice, which an enum cannot have.
    let (number, place) = match refusal {
        Refusal::BadSize => (1, 0),
        Refusal::BadKey => (2, 0),
        Refusal::WrongLength => (3, 0),
        Refusal::SmallOutput => (4, 0),
        Refusal::NotANumber => (5, index),
        Refusal::TooBright => (6, index),
        Refusal::UnexpectedWord => (7, index),
        Refusal::InvalidChannel => (8, index),
        Refusal::DarkPage => (9, 0),
        Refusal::BadWhite => (10, 0),
        Refusal::NoSuchRow => (20, 0),
        Refusal::UnlikeBands => (21, 0),
    };
    Outcome { number, place }
}

// The number and place that a fault is told by.
impl From<Fault> for Outcome {
    ghost from_gives = { λ fault outcome. outcome ≡ outcome_of fault.refusal fault.index };

    fn from(fault: Fault) -> Outcome {
        outcome_of(fault.refusal, fault.index)
    }
}

// The number and place that the answer of a check is told by; both are 0 where the call accepts. A function and no `From`: `report(check(strip))`
// says what is made.
pub fn report(verdict: Result<(), Fault>) -> Outcome
    ensures { result ≡ report_of verdict }
{
    match verdict {
        Ok(()) => Outcome {
            number: 0,
            place: 0,
        },
        Err(fault) => Outcome::from(fault),
    }
}

// One check of a chain: what `test` says holds, or else this refusal, found at the element or word of this index.
#[tactic(auto, unfolding(crate::specs::Verdicts::require))]
pub fn require(test: bool, refusal: Refusal, index: usize) -> Result<(), Fault>
    ensures verdict { result ≡ require test refusal index accepted }
    ensures outcome { report_of result ≡ report_of (require test refusal index accepted) }
{
    if test { Ok(()) } else { Err(refusal.at(index)) }
}
