// The checks of a strip, in their order.
ghost use Rattle.std.specs.Prelude.{◌≡◌};
ghost use Rattle.refusal.specs.Verdicts.{report_of};
ghost use Rattle.strip.specs.Checks.{check_head, check_body, check_with, check_strip, check_output, check_row};

use crate::read::{body, body_start, declared_length, declared_pixels, end_index, word_at};
use channels::check_channels;
use refusal::{Fault, Refusal, require};
use word::header::{check_key_word, check_size_word, check_white_word, end_word, height_in};

// The header words and the length.
#[tactic(auto, unfolding(crate::specs::Checks::check_head, refusal::specs::Verdicts::require, refusal::specs::Verdicts::and_then))]
fn check_head(strip: &[u32]) -> Result<(), Fault>
    ensures { result ≡ check_head strip.now }
{
    require(2 <= strip.len(), Refusal::WrongLength, 0)?;
    check_size_word(word_at(strip, 0))?;
    check_key_word(word_at(strip, 1))?;
    check_white_word(word_at(strip, 2))?;
    require(
        strip.len() == declared_length(strip),
        Refusal::WrongLength,
        0,
    )
}

// The channel words and the end word.
#[tactic(auto, unfolding(crate::specs::Checks::check_body, refusal::specs::Verdicts::and_then, refusal::specs::Verdicts::require))]
fn check_body(strip: &[u32]) -> Result<(), Fault>
    ensures { result ≡ check_body strip.now }
{
    check_channels(body_start(strip) as u32, body(strip))?;
    let end = end_index(strip);
    require(
        word_at(strip, end) as u64 == end_word(declared_pixels(strip) as u32),
        Refusal::UnexpectedWord,
        end,
    )
}

// The checks of a strip, with what a call adds between length and words.
#[tactic(auto, unfolding(crate::specs::Checks::check_with, refusal::specs::Verdicts::and_then))]
pub fn check_with(strip: &[u32], added: Result<(), Fault>) -> Result<(), Fault>
    ensures verdict { result ≡ check_with added strip.now }
    ensures outcome { report_of result ≡ report_of (check_with added strip.now) }
{
    check_head(strip)?;
    added?;
    check_body(strip)
}

// A whole strip.
#[tactic(auto, unfolding(crate::specs::Checks::check_strip))]
pub fn check(strip: &[u32]) -> Result<(), Fault>
    ensures verdict { result ≡ check_strip strip.now }
    ensures outcome { report_of result ≡ report_of (check_strip strip.now) }
{
    check_with(strip, Ok(()))
}

// A strip whose channels go into an output of so many elements.
#[tactic(auto, unfolding(crate::specs::Checks::check_output))]
pub fn check_output(strip: &[u32], room: usize) -> Result<(), Fault>
    ensures verdict { result ≡ check_output strip.now room }
    ensures outcome { report_of result ≡ report_of (check_output strip.now room) }
{
    let count = 3 * declared_pixels(strip);
    check_with(strip, require(count <= room, Refusal::SmallOutput, 0))
}

// A strip of which row y is asked for.
#[tactic(auto, unfolding(crate::specs::Checks::check_row))]
pub fn check_row(strip: &[u32], y: usize) -> Result<(), Fault>
    ensures verdict { result ≡ check_row strip.now y }
    ensures outcome { report_of result ≡ report_of (check_row strip.now y) }
{
    let height = height_in(word_at(strip, 0)) as usize;
    check_with(strip, require(y < height, Refusal::NoSuchRow, 0))
}
