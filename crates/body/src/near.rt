// The indices of the luminances of 16 pixels together, as far as their channels lie near one another. No turn of these loops branches.
ghost use Rattle.std.specs.Prelude.{◌≡◌, ◌+◌, ◌≤◌, length};
ghost use Rattle.body.specs.loops.NearBlocks.{TakenCodes, AreNear, NearIndices};

use luminance::near::near_index;
use word::header::low_half;

// The pixels that are worked out together.
pub const NEAR_PIXELS: usize = 16;

// An array for each channel, since a compiler then loads several codes at once.
// The codes of one channel of these pixels, the first of which is the word at `start`.
fn take_codes(words: &[u32], start: usize, codes: &mut [u16; NEAR_PIXELS])
    requires { start + 46 ≤ length words.now }
    ensures { TakenCodes words.now start codes.new }
{
    for (j, code) in codes.iter_mut().enumerate() {
        *code = low_half(words[start + 3 * j]);
    }
}

// The index of each pixel by its codes, where it can be worked out.
fn code_indices(
    reds: &[u16; NEAR_PIXELS],
    greens: &[u16; NEAR_PIXELS],
    blues: &[u16; NEAR_PIXELS],
    indices: &mut [u16; NEAR_PIXELS],
)
    ensures { AreNear reds.now greens.now blues.now indices.new }
{
    for (j, index) in indices.iter_mut().enumerate() {
        *index = near_index(reds[j], greens[j], blues[j]);
    }
}

// The same by the words of the pixels.
pub fn near_indices(words: &[u32], indices: &mut [u16; NEAR_PIXELS])
    requires { 48 ≤ length words.now }
    ensures { NearIndices words.now indices.new }
{
    let mut reds = [0u16; NEAR_PIXELS];
    let mut greens = [0u16; NEAR_PIXELS];
    let mut blues = [0u16; NEAR_PIXELS];
    take_codes(words, 0, &mut reds);
    take_codes(words, 1, &mut greens);
    take_codes(words, 2, &mut blues);
    code_indices(&reds, &greens, &blues, indices);
}
