// What every conversion does, whatever it reads: the checks of the page, where the channel words stand, and the words around them.
#![tactic(auto)]

ghost use Rattle.std.specs.Prelude.{◌≡◌, true, ◌≤◌, length};
ghost use Rattle.std.proofs.lemmas.List.Edits.{sets};
ghost use Rattle.white.specs.Whites.{white_fits};
ghost use Rattle.number.specs.Channels.{code_of, channel_in};
ghost use Rattle.word.specs.Words.{size_fits, key_fits, white_words, channel_word, end_index, strip_length};
ghost use Rattle.frame.specs.Frames.{check_frame};
ghost use Rattle.frame.specs.loops.Stores.{with_frame};
ghost use Rattle.refusal.specs.Verdicts.{report_of};

use number::channel::{Channel, decoded_code};
use refusal::{Fault, Refusal, require};
use white::white_fits;
use word::body::{body_start, channel_word};
use word::header::{Header, end_word, key_fits, key_word, size_fits, size_word, white_word};

// The index of the end word, behind the last channel word, of a page within its limits.
#[tactic(auto, using(word::proofs::Limits::size_limits, word::proofs::Limits::head_short))]
pub fn body_end(header: Header) -> usize
    requires { size_fits header.width header.height ≡ true }
    ensures { result ≡ end_index header }
{
    let pixels = (header.width * header.height) as usize;
    body_start(header) + 3 * pixels
}

// The checks of a source of so many elements, and an output of so many words.
#[tactic(auto, using(word::proofs::Limits::size_limits, word::proofs::Limits::head_short), unfolding(crate::specs::Frames::check_frame, refusal::specs::Verdicts::require))]
pub fn check_frame(header: Header, per: u8, count: usize, room: usize) -> Result<(), Fault>
    ensures verdict { result ≡ check_frame header per count room }
    ensures outcome { report_of result ≡ report_of (check_frame header per count room) }
{
    require(size_fits(header.width, header.height), Refusal::BadSize, 0)?;
    require(key_fits(header.key), Refusal::BadKey, 0)?;
    require(white_fits(header.white), Refusal::BadWhite, 0)?;
    let pixels = (header.width * header.height) as usize;
    require(count == per as usize * pixels, Refusal::WrongLength, 0)?;
    require(body_end(header) + 1 <= room, Refusal::SmallOutput, 0)
}

// The word of channel k from what it decodes to; black for a refusal, which is never stored.
pub fn decoded_word(k: usize, decoded: Result<Channel, Refusal>) -> u32
    ensures { result ≡ channel_word k (code_of (channel_in decoded)) }
{
    channel_word(k, decoded_code(decoded))
}

// The white word of a page that has a white point, behind the key word.
#[tactic(auto, using(white::proofs::Limits::white_limits))]
fn store_white(white: Option<u64>, output: &mut [u32])
    requires { (white_fits white ≡ true) × (3 ≤ length output.old) }
    ensures { output.new ≡ sets output.old 2 (white_words white) }
{
    if let Some(tenths) = white {
        output[2] = white_word(tenths as u16);
    }
}

// The words around the channels: size, key, white point and end, of a page that was accepted for this output.
// That the header fits stays a premise, not an invariant of `Header`, which holds what a caller passes until `check_frame` has looked at it.
#[tactic(auto, using(word::proofs::Limits::size_limits, word::proofs::Limits::key_limits))]
pub fn store_frame(header: Header, output: &mut [u32])
    requires { (size_fits header.width header.height ≡ true) × (key_fits header.key ≡ true) × (white_fits header.white ≡ true) × (strip_length header ≤ length output.old) }
    ensures { output.new ≡ with_frame header output.old }
{
    let pixels = header.width * header.height;
    output[0] = size_word(header.width as u16, header.height as u16);
    output[1] = key_word(header.key as u16);
    store_white(header.white, output);
    output[body_end(header)] = end_word(pixels as u32) as u32;
}
