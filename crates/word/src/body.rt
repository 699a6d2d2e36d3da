// The channel words of a strip.
ghost use Rattle.std.specs.Prelude.{◌≡◌};
ghost use Rattle.word.specs.Words.{channel_word, body_start};
ghost use Rattle.word.specs.Fields.{decode_word};
ghost use Rattle.word.specs.Placing.{verdict_at};
ghost use Rattle.word.specs.Pixels.{pixel_of, word_channel};
ghost use Rattle.number.specs.Channels.{decoded_told};
ghost use Rattle.refusal.specs.Verdicts.{report_of};

use crate::header::{Header, low_half};
use number::channel::{Channel, Pixel, code_to_channel};
use refusal::{Fault, Refusal};

// The index of the first channel word: size and key word stand before it, and the white word where there is one.
pub fn body_start(header: Header) -> usize
    ensures { result ≡ body_start header }
{
    match header.white {
        None => 2,
        Some(_) => 3,
    }
}

// The word of channel k of a page, from the channel's 16-bit form.
pub fn channel_word(k: usize, code: u16) -> u32
    ensures { result ≡ channel_word k code }
{
    (4 + (k % 3) as u32) * 268435456 + code as u32
}

// The channel that a word stands for as the word of channel k.
#[tactic(auto, unfolding(crate::specs::Fields::decode_word))]
pub fn decode_word(k: usize, word: u32) -> Result<Channel, Refusal>
    ensures answer { result ≡ decode_word k word }
    ensures told { decoded_told result ≡ decoded_told (decode_word k word) }
{
    let code = low_half(word);
    if word == channel_word(k, code) {
        code_to_channel(code)
    } else {
        Err(Refusal::UnexpectedWord)
    }
}

// The verdict on what an element or word stands for; its index is i.
pub fn verdict_at(i: usize, decoded: Result<Channel, Refusal>) -> Result<(), Fault>
    ensures verdict { result ≡ verdict_at i decoded }
    ensures outcome { report_of result ≡ report_of (verdict_at i decoded) }
{
    match decoded {
        Ok(_) => Ok(()),
        Err(refusal) => Err(refusal.at(i)),
    }
}

// The channel of an accepted word.
fn word_channel(word: u32) -> Channel
    ensures { result ≡ word_channel word }
{
    code_to_channel(low_half(word)).unwrap_or(Channel::Black)
}

// The pixel of three accepted words.
pub fn pixel_in(red: u32, green: u32, blue: u32) -> Pixel
    ensures { result ≡ pixel_of (word_channel red) (word_channel green) (word_channel blue) }
{
    Pixel {
        red: word_channel(red),
        green: word_channel(green),
        blue: word_channel(blue),
    }
}
