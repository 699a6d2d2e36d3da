// A page's header, its limits, and the words that it stands in.
ghost use Rattle.std.specs.Prelude.{◌≡◌, ◌*◌};
ghost use Rattle.word.specs.Words.{size_fits, key_fits, size_word, key_word, white_word, end_word};
ghost use Rattle.word.specs.Fields.{width_in, height_in, low16, white_in, check_size_word, check_key_word, check_white_word};
ghost use Rattle.refusal.specs.Verdicts.{report_of};

use refusal::{Fault, Refusal, require};
use white::tenths_fit;

// Width, height, key and white point of a page: any numbers, and within the limits in an accepted strip.
#[derive(Clone, Copy)]
pub struct Header {
    pub width: u64,
    pub height: u64,
    pub key: u64,
    pub white: Option<u64>,
}

const GREATEST_SIDE: u64 = 8192;

const MOST_PIXELS: u64 = 16777216;

const GREATEST_KEY: u64 = 1000;

const WHITE_KIND: u32 = 3;

// Whether a page may have this width and height.
#[tactic(auto, unfolding(crate::specs::Words::size_fits))]
pub fn size_fits(width: u64, height: u64) -> bool
    ensures { result ≡ size_fits width height }
{
    1 <= width
        && width <= GREATEST_SIDE
        && 1 <= height
        && height <= GREATEST_SIDE
        && width * height <= MOST_PIXELS
}

// Whether a page may have this key.
#[tactic(auto, unfolding(crate::specs::Words::key_fits))]
pub fn key_fits(key: u64) -> bool
    ensures { result ≡ key_fits key }
{
    1 <= key && key <= GREATEST_KEY
}

// Width and height of a size word.
pub fn width_in(word: u32) -> u16
    ensures { result ≡ width_in word }
{
    (word / 16384 % 16384) as u16
}

pub fn height_in(word: u32) -> u16
    ensures { result ≡ height_in word }
{
    (word % 16384) as u16
}

// The lower half of a word: a key, a white point, or a channel's 16-bit form.
pub fn low_half(word: u32) -> u16
    ensures { result ≡ low16 word }
{
    (word % 65536) as u16
}

// The white point that the third word of a strip stands for.
#[tactic(auto, unfolding(crate::specs::Fields::white_in))]
pub fn white_in(word: u32) -> Option<u64>
    ensures { result ≡ white_in word }
{
    if word / 268435456 == WHITE_KIND {
        Some(low_half(word) as u64)
    } else {
        None
    }
}

// The size word of a page.
pub fn size_word(width: u16, height: u16) -> u32
    ensures { result ≡ size_word width height }
{
    268435456 + (width as u32) * 16384 + height as u32
}

// The key word of a page.
pub fn key_word(key: u16) -> u32
    ensures { result ≡ key_word key }
{
    2 * 268435456 + key as u32
}

// The white word of a page.
pub fn white_word(tenths: u16) -> u32
    ensures { result ≡ white_word tenths }
{
    WHITE_KIND * 268435456 + tenths as u32
}

// The end word of a page of so many pixels; a page of up to 2^28 pixels has one of 32 bits.
pub fn end_word(pixels: u32) -> u64
    ensures { result ≡ end_word pixels }
{
    7 * 268435456 + pixels as u64
}

// The verdict on the first word of a strip.
#[tactic(auto, unfolding(crate::specs::Fields::check_size_word, refusal::specs::Verdicts::require))]
pub fn check_size_word(word: u32) -> Result<(), Fault>
    ensures verdict { result ≡ check_size_word word }
    ensures outcome { report_of result ≡ report_of (check_size_word word) }
{
    let width = width_in(word);
    let height = height_in(word);
    require(word == size_word(width, height), Refusal::UnexpectedWord, 0)?;
    require(size_fits(width as u64, height as u64), Refusal::BadSize, 0)
}

// The verdict on the second word of a strip.
#[tactic(auto, unfolding(crate::specs::Fields::check_key_word, refusal::specs::Verdicts::require))]
pub fn check_key_word(word: u32) -> Result<(), Fault>
    ensures verdict { result ≡ check_key_word word }
    ensures outcome { report_of result ≡ report_of (check_key_word word) }
{
    let key = low_half(word);
    require(word == key_word(key), Refusal::UnexpectedWord, 1)?;
    require(key_fits(key as u64), Refusal::BadKey, 0)
}

// The verdict on the third word of a strip, if it is a white word.
#[tactic(auto, unfolding(crate::specs::Fields::check_white_word, refusal::specs::Verdicts::require))]
pub fn check_white_word(word: u32) -> Result<(), Fault>
    ensures verdict { result ≡ check_white_word word }
    ensures outcome { report_of result ≡ report_of (check_white_word word) }
{
    if word / 268435456 != WHITE_KIND {
        return Ok(());
    }
    let tenths = low_half(word);
    require(word == white_word(tenths), Refusal::UnexpectedWord, 2)?;
    require(tenths_fit(tenths as u64), Refusal::BadWhite, 0)
}

// The pixels that a size word declares.
pub fn pixel_count(word: u32) -> usize
    ensures { result ≡ width_in word * height_in word }
{
    width_in(word) as usize * height_in(word) as usize
}
