// A step of a page reader: no reader crosses to C, so a step is asked for by its number.
ghost use Rattle.std.specs.Prelude.{◌≡◌};
ghost use Rattle.answers.specs.Answers.{step_answer};

use number::channel::{Pixel, channel_to_code};
use refusal::{Fault, Outcome};

// A step: `over` is 1 where the page is over, else 0 with the pixel's channels as 16-bit numbers; a refusal has 0 in all four. C has no Result
// and no Option: number and place are 0 where there is no refusal, and `over` says that no pixel follows.
#[repr(C)]
#[derive(Clone, Copy, Default)]
pub struct StepAnswer {
    pub number: u64,
    pub place: u64,
    pub over: u64,
    pub red: u64,
    pub green: u64,
    pub blue: u64,
}

// A step or the strip's refusal, in numbers.
impl From<Result<Option<Pixel>, Fault>> for StepAnswer {
    ghost from_gives = { λ step numbers. numbers ≡ step_answer step };

    fn from(step: Result<Option<Pixel>, Fault>) -> StepAnswer {
        match step {
            Ok(Some(pixel)) => StepAnswer {
                red: channel_to_code(pixel.red) as u64,
                green: channel_to_code(pixel.green) as u64,
                blue: channel_to_code(pixel.blue) as u64,
                ..StepAnswer::default()
            },
            Ok(None) => StepAnswer {
                over: 1,
                ..StepAnswer::default()
            },
            Err(fault) => {
                let outcome = Outcome::from(fault);
                StepAnswer {
                    number: outcome.number,
                    place: outcome.place as u64,
                    ..StepAnswer::default()
                }
            },
        }
    }
}
