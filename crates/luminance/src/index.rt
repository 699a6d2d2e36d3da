// The index of a pixel's luminance, from the 16-bit codes of its channels.
ghost use Rattle.std.specs.Prelude.{◌≡◌, ◌+◌, ◌-◌, ◌*◌, ◌/◌, ◌^◌, ◌<◌, ◌≤◌, min};
ghost use Rattle.number.proofs.Laws.{IsCode, code_channel};
ghost use Rattle.luminance.specs.Pixels.{code_pixel, luminance_of, luminance_told};
ghost use Rattle.luminance.specs.loops.Codes.{index_of, stored_at, IsWeightTable, IsCut};

use crate::pixel::pixel_luminance;
use number::channel::{Channel, Pixel, code_to_channel};
use number::ratio::Stored;

// The weight times each power of two from 2^0 to 2^47.
fn weight_table(weight: u64) -> [u64; 48]
    requires { weight ≤ 67 }
    ensures { IsWeightTable weight result }
{
    let mut table = [0; 48];
    for i in 0..48 {
        table[i] = weight << i;
    }
    table
}

// The weights of red. Red and blue have a function each, so that no caller has to show a weight's limit.
pub fn red_weights() -> [u64; 48]
    ensures { IsWeightTable 27 result }
{
    weight_table(27)
}

// The weights of blue.
pub fn blue_weights() -> [u64; 48]
    ensures { IsWeightTable 6 result }
{
    weight_table(6)
}

// The place of an exponent in a weight table, where green's is at 24. It is 48 or more for an exponent that has none.
fn place_of(exponent: u64, green: u64) -> u64
    requires { (exponent ≤ 255) × (green ≤ 255) }
    ensures { result < 48 → result + green ≡ exponent + 24 }
{
    (exponent + 24).wrapping_sub(green)
}

// 67 * 2^24, the weight of green at its own exponent.
const GREEN_WEIGHT: u64 = 1124073472;

// The weighted sum of three channels by their mantissas r, g and b, and the weights of red and blue at their exponents.
fn weighted_sum(red: u64, blue: u64, r: u64, g: u64, b: u64) -> u64
    requires { (red ≤ 27 * 2 ^ 47) × (blue ≤ 6 * 2 ^ 47) × (r ≤ 255) × (g ≤ 255) × (b ≤ 255) }
    ensures sum { result ≡ (2 * r + 1) * red + (2 * g + 1) * (67 * 2 ^ 24) + (2 * b + 1) * blue }
    ensures bounds { (4096 ≤ result) × (result < 2 ^ 63) }
{
    (2 * r + 1) * red + (2 * g + 1) * GREEN_WEIGHT + (2 * b + 1) * blue
}

// The first thirteen binary digits of a number, and how many digits follow them.
#[derive(Clone, Copy)]
struct CutSum {
    digits: u32,
    shift: u64,
}

fn cut(sum: u64) -> CutSum
    requires { (4096 ≤ sum) × (sum < 2 ^ 63) }
    ensures { IsCut sum result.digits result.shift }
{
    let shift = 50 - (2 * sum + 1).leading_zeros();
    CutSum {
        digits: (sum >> shift) as u32,
        shift: shift as u64,
    }
}

// The index of a hundredth of a sum by its first digits, where the sum counts 2^-24 at the exponent of green. The digits 6400 do not tell
// it: a hundred times a power of two has them, and so have numbers just above, which have the next index.
fn cut_index(digits: u32, shift: u64, green: u64) -> u64
    requires { (4096 ≤ digits) × (digits < 8192) × (shift ≤ 50) × (green ≤ 255) × (93 ≤ shift + green) }
    ensures { result ≡ 128 * (shift + green - 93) + min (digits / 25 - 128) (digits / 25 / 2) }
{
    let quotient = digits / 25;
    let least = (quotient - 128).min(quotient / 2);
    128 * (shift + green - 93) + least as u64
}

// The index of an unlit pixel. No `Option`: indices are kept in the bytes of the output, and worked out many at a time.
const UNLIT_INDEX: u64 = 0;

// The channel of a code, as `word::body` has it of a word.
fn code_channel(code: u16) -> Channel
    ensures { result ≡ code_channel code }
{
    code_to_channel(code).unwrap_or(Channel::Black)
}

// The luminance of a pixel by its codes. A number that is no code stands for black.
#[tactic(auto, using(crate::proofs::Luminances::code_pixel_law))]
pub fn code_luminance(red: u16, green: u16, blue: u16) -> Option<Stored>
    ensures answer { result ≡ luminance_of (code_pixel red green blue) }
    ensures told { luminance_told result ≡ luminance_told (luminance_of (code_pixel red green blue)) }
{
    pixel_luminance(Pixel {
        red: code_channel(red),
        green: code_channel(green),
        blue: code_channel(blue),
    })
}

// Its index, for every pixel.
#[tactic(auto, using(crate::proofs::Luminances::code_pixel_law, crate::proofs::Luminances::luminance_range))]
fn general_index(red: u16, green: u16, blue: u16) -> u64
    ensures { result ≡ index_of (luminance_of (code_pixel red green blue)) }
{
    let Some(stored) = code_luminance(red, green, blue) else {
        return UNLIT_INDEX;
    };
    128 * (stored.exponent as u64 - 66) + (stored.mantissa as u64 - 128)
}

// The index of a pixel's luminance, from the codes of its channels.
#[tactic(auto, using(crate::proofs::Indices::black_index, crate::proofs::Indices::entry_most))]
pub fn luminance_index(reds: &[u64; 48], blues: &[u64; 48], red: u16, green: u16, blue: u16) -> u64
    requires { IsWeightTable 27 reds.now × IsWeightTable 6 blues.now × IsCode red × IsCode green × IsCode blue }
    ensures { result ≡ index_of (luminance_of (code_pixel red green blue)) }
{
    if red as u32 + green as u32 + blue as u32 == 0 {
        return UNLIT_INDEX;
    }
    let green_exponent = (green / 256) as u64;
    let r = place_of((red / 256) as u64, green_exponent);
    let b = place_of((blue / 256) as u64, green_exponent);
    if 48 <= r || 48 <= b {
        return general_index(red, green, blue);
    }
    let sum = weighted_sum(
        reds[r as usize],
        blues[b as usize],
        (red % 256) as u64,
        (green % 256) as u64,
        (blue % 256) as u64,
    );
    let first = cut(sum);
    if first.digits == 6400 {
        return general_index(red, green, blue);
    }
    cut_index(first.digits, first.shift, green_exponent)
}

// The luminance at an index.
pub fn stored_at(index: u64) -> Stored
    ensures { result ≡ stored_at index }
{
    Stored {
        exponent: ((index / 128 + 66) % 256) as u8,
        mantissa: (index % 128 + 128) as u8,
    }
}
