// Channel words tallied, pixel by pixel; where an output has room for it, it keeps each pixel's luminance for the levels.
ghost use Rattle.std.specs.Prelude.{◌≡◌, ◌+◌, ◌<◌, ◌≤◌, map, length, replicate};
ghost use Rattle.std.proofs.lemmas.List.Edits.{sets};
ghost use Rattle.refusal.specs.Output.{onto};
ghost use Rattle.word.specs.Pixels.{word_pixels};
ghost use Rattle.luminance.specs.loops.Codes.{IsWeightTable, index_count};
ghost use Rattle.average.specs.Tallies.{tally_of};
ghost use Rattle.average.specs.loops.Entries.{IsLogTable};
ghost use Rattle.body.specs.Luminances.{luminances_of};
ghost use Rattle.body.specs.loops.Indices.{IsBody, index_bytes, index_list, indices_of};
ghost use Rattle.body.specs.loops.Tallying.{sums_of, AreSums, lowest, from_darkest, from_brightest, extremes_at, KeptLowest, tally_from};

use crate::near::{NEAR_PIXELS, near_indices};
use average::tables::log_table;
use average::tally::{Extremes, Tally, lowered_sum, raised_steps};
use luminance::index::{blue_weights, luminance_index, red_weights, stored_at};
use word::header::low_half;

// What the tally of some pixels is made of: how many are unlit, and the sum of the raised steps at the indices of all of them.
#[derive(Clone, Copy)]
pub struct Sums {
    pub unlit: u64,
    pub raised: u64,
}

// An index into the three bytes of a pixel in the output, from `at` on.
fn store_index(index: u64, at: usize, output: &mut [u8])
    requires { (index < index_count) × (at + 2 < length output.old) }
    ensures { output.new ≡ sets output.old at (index_bytes index) }
{
    let [low, high] = (index as u16).to_le_bytes();
    output[at] = low;
    output[at + 1] = high;
    output[at + 2] = 0;
}

// The tables of a tally: the logarithms of the mantissas, and the weights of the channels of a pixel.
#[derive(Drop)]
struct Tables {
    logs: [u16; 128],
    reds: [u64; 48],
    blues: [u64; 48],
    ghost log: { IsLogTable logs },
    ghost red: { IsWeightTable 27 reds },
    ghost blue: { IsWeightTable 6 blues },
}

impl Tables {
    fn new() -> Tables {
        Tables {
            logs: log_table(),
            reds: red_weights(),
            blues: blue_weights(),
        }
    }

    // The indices and the sums of a block of words, the words from number `at` on of `all`. In an output that has room for all of them, the
    // index of each pixel's luminance goes into the pixel's place. The near indices of a whole block are worked out first; where one is a
    // multiple of 128, the pixel's own takes its place.
    fn index_part(
        &self,
        words: &[u32],
        at: usize,
        all: usize,
        indices: &mut [u16; NEAR_PIXELS],
        output: &mut [u8],
    ) -> Sums
        requires { IsBody words.now × (length words.now ≤ 48) × (at + length words.now ≤ all) × (indices.old ≡ replicate 16 0) }
        ensures sums { result ≡ sums_of (index_list (word_pixels words.now)) }
        ensures indices { indices.new ≡ onto (index_list (word_pixels words.now)) (replicate 16 0) }
        ensures content { (length output.new ≡ length output.old)
            × (all ≤ length output.old
            → output.new ≡ sets output.old at (indices_of (word_pixels words.now))) }
    {
        if words.len() == 3 * NEAR_PIXELS {
            near_indices(words, indices);
        }
        let mut unlit = 0;
        let mut raised = 0;
        for p in 0..words.len() / 3 {
            let k = 3 * p;
            let mut index = indices[p] as u64;
            if index % 128 == 0 {
                index = luminance_index(
                    &self.reds,
                    &self.blues,
                    low_half(words[k]),
                    low_half(words[k + 1]),
                    low_half(words[k + 2]),
                );
                indices[p] = index as u16;
                unlit += u64::from(index == 0);
            }
            if all <= output.len() {
                store_index(index, at + k, output);
            }
            raised += raised_steps(&self.logs, stored_at(index));
        }
        Sums { unlit, raised }
    }

    // The tally of pixels by their sums and what is lowest.
    #[tactic(auto, unfolding(crate::specs::loops::Tallying::tally_from))]
    fn tally(&self, pixels: usize, sums: Sums, lanes: &Lanes) -> Tally
        requires { AreSums pixels sums.unlit sums.raised }
        ensures { result ≡ tally_from pixels sums.unlit sums.raised (lowest lanes.now.dark) (lowest lanes.now.bright) }
    {
        let count = pixels as u64 - sums.unlit;
        let steps = raised_steps(&self.logs, stored_at(0));
        Tally {
            count,
            sum: lowered_sum(count, sums.raised - sums.unlit * steps),
            extremes: lanes.extremes(),
        }
    }
}

// The lowest of all lanes.
fn lowest_of(lanes: &[u16; NEAR_PIXELS]) -> u16
    ensures { result ≡ lowest lanes.now }
{
    lanes.iter().fold(u16::MAX, |low, &lane| low.min(lane))
}

// Lane j keeps what is lowest of the pixels j, j + 16 and so on: for the darkest, their indices less one, for the brightest, 65,535 less their
// indices. No lane depends on another, so that a compiler takes several at a time.
#[derive(Drop)]
struct Lanes {
    dark: [u16; NEAR_PIXELS],
    bright: [u16; NEAR_PIXELS],
}

impl Lanes {
    // No pixel yet.
    #[tactic(auto, unfolding(crate::specs::loops::Tallying::lowest))]
    fn new() -> Lanes
        ensures dark { lowest result.dark ≡ 65535 }
        ensures bright { lowest result.bright ≡ 65535 }
    {
        Lanes {
            dark: [u16::MAX; NEAR_PIXELS],
            bright: [u16::MAX; NEAR_PIXELS],
        }
    }

    // The indices of a block more.
    fn keep_lowest(&mut self, indices: &[u16; NEAR_PIXELS])
        ensures dark { KeptLowest self.old.dark (map from_darkest indices.now) self.new.dark }
        ensures bright { KeptLowest self.old.bright (map from_brightest indices.now) self.new.bright }
    {
        for (j, &index) in indices.iter().enumerate() {
            self.dark[j] = self.dark[j].min(index.wrapping_sub(1));
            self.bright[j] = self.bright[j].min(u16::MAX - index);
        }
    }

    // The extremes by the lowest of both.
    #[tactic(auto, unfolding(crate::specs::loops::Tallying::extremes_at))]
    fn extremes(&self) -> Option<Extremes>
        ensures { result ≡ extremes_at (lowest self.now.dark) (lowest self.now.bright) }
    {
        let dark = lowest_of(&self.dark);
        let bright = lowest_of(&self.bright);
        if bright == u16::MAX {
            return None;
        }
        Some(Extremes {
            darkest: stored_at(dark as u64 + 1),
            brightest: stored_at((u16::MAX - bright) as u64),
        })
    }
}

// The tally of channel words, with the indices in an output that has room.
fn index_pixels(words: &[u32], output: &mut [u8]) -> Tally
    requires { IsBody words.now }
    ensures tally { result ≡ tally_of (luminances_of (word_pixels words.now)) }
    ensures content { length words.now ≤ length output.old
        → output.new ≡ onto (indices_of (word_pixels words.now)) output.old }
{
    let tables = Tables::new();
    let mut lanes = Lanes::new();
    let mut sums = Sums {
        unlit: 0,
        raised: 0,
    };
    let all = words.len();
    let pixels = all / 3;
    for block in 0..pixels.div_ceil(NEAR_PIXELS) {
        let p = block * NEAR_PIXELS;
        let end = (p + NEAR_PIXELS).min(pixels);
        let part = &words[3 * p..3 * end];
        let mut indices = [0u16; NEAR_PIXELS];
        let more = tables.index_part(part, 3 * p, all, &mut indices, output);
        lanes.keep_lowest(&indices);
        sums.unlit += more.unlit;
        sums.raised += more.raised;
    }
    tables.tally(pixels, sums, &lanes)
}

// The tally of channel words.
pub fn tally(words: &[u32]) -> Tally
    requires { IsBody words.now }
    ensures { result ≡ tally_of (luminances_of (word_pixels words.now)) }
{
    index_pixels(words, &mut [])
}

// The tally of channel words, with the indices of the pixels' luminances in the front of the output.
pub fn tally_keeping(words: &[u32], output: &mut [u8]) -> Tally
    requires { IsBody words.now × (length words.now ≤ length output.old) }
    ensures tally { result ≡ tally_of (luminances_of (word_pixels words.now)) }
    ensures content { output.new ≡ onto (indices_of (word_pixels words.now)) output.old }
{
    index_pixels(words, output)
}
