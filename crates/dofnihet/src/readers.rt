// A strip walked pixel by pixel.
ghost use Rattle.std.specs.Prelude.{◌≡◌};
ghost use Rattle.reader.specs.Steps.{step_number};
ghost use Rattle.answers.specs.Answers.{step_answer};

use answers::steps::StepAnswer;
use reader::step_number;

// The answer of step n of a strip's reader, counted from 0.
#[unsafe(no_mangle)]
pub extern "C" fn dofnihet_step_of(strip: &[u32], n: u64) -> StepAnswer
    ensures { result ≡ step_answer (step_number strip.now n) }
{
    step_number(strip, n).into()
}
