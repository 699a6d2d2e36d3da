// Whether enough of a page's pixels are lit.
#![tactic(auto)]

ghost use Rattle.std.specs.Prelude.{◌≡◌, [], ◌∷◌, min};
ghost use Rattle.number.specs.Channels.{IsCode};
ghost use Rattle.word.specs.Fields.{low16};
ghost use Rattle.word.specs.Pixels.{pixel_of, word_channel, word_pixels};
ghost use Rattle.body.specs.Luminances.{lit_count};
ghost use Rattle.body.specs.loops.Indices.{IsBody};
ghost use Rattle.light.specs.Light.{check_light};
ghost use Rattle.light.specs.loops.Counting.{enough_for};

use refusal::{Fault, Refusal, require};
use word::header::low_half;

// The least number of lit pixels that is enough for a page.
pub fn enough_for(pixels: u64) -> u64
    ensures { result ≡ enough_for pixels }
{
    pixels.div_ceil(16)
}

// A page of so many pixels, of which so many are lit.
#[tactic(auto, using(crate::proofs::Light::light), unfolding(crate::specs::Light::check_light))]
pub fn check_light(lit: u64, pixels: u64) -> Result<(), Fault>
    ensures { result ≡ check_light lit pixels }
{
    require(enough_for(pixels) <= lit, Refusal::DarkPage, 0)
}

// 1 where the pixel of three channel words is lit, else 0: the code of a black channel is 0. `IsCode` stays a
// premise: it is about the lower half of a plain word.
fn lit_one(red: u32, green: u32, blue: u32) -> u64
    requires { IsCode (low16 red) × IsCode (low16 green) × IsCode (low16 blue) }
    ensures { result ≡ lit_count (pixel_of (word_channel red) (word_channel green) (word_channel blue) ∷ []) }
{
    let codes = low_half(red) as u64 + low_half(green) as u64 + low_half(blue) as u64;
    u64::from(codes != 0)
}

// The number of lit pixels of channel words, or `most` where there are more: as soon as it is reached, no further word is read.
pub fn lit_up_to(words: &[u32], most: u64) -> u64
    requires { IsBody words.now }
    ensures { result ≡ min most (lit_count (word_pixels words.now)) }
{
    let mut lit = 0;
    for p in 0..words.len() / 3 {
        if lit == most {
            return lit;
        }
        let k = 3 * p;
        lit += lit_one(words[k], words[k + 1], words[k + 2]);
    }
    lit
}
