// The tally of a page.
ghost use Rattle.std.specs.Prelude.{◌≡◌};
ghost use Rattle.answers.specs.Answers.{tally_answer};

use average::average::Average;
use average::tally::Extremes;
use number::ratio::Stored;
use page::tally::PageTally;
use refusal::{Fault, Outcome};

// What stands for a luminance that is absent.
const NO_STORED: Stored = Stored {
    exponent: 0,
    mantissa: 0,
};

const NO_AVERAGE: Average = Average {
    steps: 0,
    stored: NO_STORED,
};

const NO_EXTREMES: Extremes = Extremes {
    darkest: NO_STORED,
    brightest: NO_STORED,
};

// A tally with its average and its extremes; a refusal has 0 in all of them, and so has what a tally is without. C has no Result and no Option:
// number and place are 0 where there is no refusal, and `present` says that the average counts.
#[repr(C)]
#[derive(Clone, Copy, Default)]
pub struct TallyAnswer {
    pub number: u64,
    pub place: u64,
    pub lit: u64,
    pub sum: i64,
    pub present: u64,
    pub average: i64,
    pub exponent: u64,
    pub mantissa: u64,
    pub darkest_exponent: u64,
    pub darkest_mantissa: u64,
    pub brightest_exponent: u64,
    pub brightest_mantissa: u64,
}

// A page's tally with its average or its refusal, in numbers.
impl From<Result<PageTally, Fault>> for TallyAnswer {
    ghost from_gives = { λ answer numbers. numbers ≡ tally_answer answer };

    fn from(answer: Result<PageTally, Fault>) -> TallyAnswer {
        match answer {
            Ok(page) => {
                let average = page.average.unwrap_or(NO_AVERAGE);
                let extremes = page.tally.extremes.unwrap_or(NO_EXTREMES);
                TallyAnswer {
                    lit: page.tally.count,
                    sum: page.tally.sum,
                    present: page.average.is_some() as u64,
                    average: average.steps,
                    exponent: average.stored.exponent as u64,
                    mantissa: average.stored.mantissa as u64,
                    darkest_exponent: extremes.darkest.exponent as u64,
                    darkest_mantissa: extremes.darkest.mantissa as u64,
                    brightest_exponent: extremes.brightest.exponent as u64,
                    brightest_mantissa: extremes.brightest.mantissa as u64,
                    ..TallyAnswer::default()
                }
            },
            Err(fault) => {
                let outcome = Outcome::from(fault);
                TallyAnswer {
                    number: outcome.number,
                    place: outcome.place as u64,
                    ..TallyAnswer::default()
                }
            },
        }
    }
}
