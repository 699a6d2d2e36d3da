// A reader's start and steps, on its strip and its position.
ghost use Rattle.std.specs.Prelude.{◌≡◌};
ghost use Rattle.reader.specs.Steps.{start_of, pixel_begins, step_at, position_after};
ghost use Rattle.reader.specs.loops.Counts.{steps_before};

use number::channel::Pixel;
use refusal::Fault;
use strip::check::check;
use strip::read::body_start;
use word::body::pixel_in;

// Where the reader of a strip starts.
pub fn start_of(strip: &[u32]) -> usize
    ensures { result ≡ start_of strip.now }
{
    match check(strip) {
        Ok(()) => body_start(strip),
        Err(_) => 0,
    }
}

// Whether a pixel begins at this position of a strip of so many words: 0 stands for none, and its three words stand before the end word.
fn pixel_begins(length: usize, position: usize) -> bool
    ensures { result ≡ pixel_begins length position }
{
    position > 0 && position < length.saturating_sub(3)
}

// The answer at a position.
#[tactic(auto, unfolding(crate::specs::Steps::step_at))]
pub fn step_at(strip: &[u32], position: usize) -> Result<Option<Pixel>, Fault>
    ensures { result ≡ step_at strip.now position }
{
    if pixel_begins(strip.len(), position) {
        return Ok(Some(pixel_in(strip[position], strip[position + 1], strip[position + 2])));
    }
    if position == 0 {
        check(strip)?;
    }
    Ok(None)
}

// The position after a step: past the pixel that was told, else the same.
#[tactic(auto, unfolding(crate::specs::Steps::position_after))]
pub fn position_after(strip: &[u32], position: usize) -> usize
    ensures { result ≡ position_after strip.now position }
{
    if pixel_begins(strip.len(), position) {
        position + 3
    } else {
        position
    }
}

// As many of n steps as make a difference: none over a refused strip, else at most a third of its words, as a pixel has three.
pub fn steps_before(strip: &[u32], n: u64) -> u64
    ensures { result ≡ steps_before strip.now n }
{
    let Ok(()) = check(strip) else {
        return 0;
    };
    n.min((strip.len() / 3) as u64)
}
