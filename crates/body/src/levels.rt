// Channel words mapped to levels under a tone, pixel by pixel, from the luminances that their tally left in the output.
ghost use Rattle.std.specs.Prelude.{◌≡◌, ◌+◌, ◌*◌, ◌^◌, ◌<◌, ◌≤◌, [], ◌∷◌, length};
ghost use Rattle.std.proofs.lemmas.List.Edits.{sets};
ghost use Rattle.number.specs.Channels.{IsCode};
ghost use Rattle.refusal.specs.Output.{onto};
ghost use Rattle.word.specs.Fields.{low16};
ghost use Rattle.word.specs.Pixels.{pixel_of, word_channel, word_pixels};
ghost use Rattle.tone.specs.declared.tone.Tone.{Tone};
ghost use Rattle.tone.specs.Levels.{IsTone};
ghost use Rattle.body.specs.Levels.{levels_under};
ghost use Rattle.body.specs.loops.Indices.{IsBody, IsIndex, HoldsIndices};
ghost use Rattle.body.specs.loops.FactorTables.{factor_under, IsFactorTable, LevelsBy};
ghost use Rattle.body.specs.loops.LevelBlocks.{AreTables, IsBlock, limited_front, HoldsLevels};

use luminance::index::stored_at;
use tone::factor::{at_most_255, factor, power_table, reciprocal_table, wide_level};
use tone::level::{display_by, scaled_table};
use tone::tone::Tone;
use word::header::low_half;

// The pixels whose limits are taken together, with 192 levels.
const LEVEL_PIXELS: usize = 64;

// What stands for the factor of an unlit pixel: a number other than 0 that makes every level 0. No `Option`: a table of them is twice as
// large, and there is no heap.
const UNLIT_FACTOR: u64 = 1099511627776;

// The levels of a pixel before the limit of 255.
#[derive(Clone, Copy)]
pub struct WideLevels {
    pub red: u16,
    pub green: u16,
    pub blue: u16,
}

// The three numbers of a pixel, from the index `at` on.
fn store_wide(levels: WideLevels, at: usize, wide: &mut [u16; 192])
    requires { at + 2 < 192 }
    ensures { wide.new ≡ sets wide.old at (levels.red ∷ levels.green ∷ levels.blue ∷ []) }
{
    wide[at] = levels.red;
    wide[at + 1] = levels.green;
    wide[at + 2] = levels.blue;
}

// The index that two bytes hold.
fn index_in(low: u8, high: u8) -> usize
    ensures { result ≡ low + 256 * high }
{
    u16::from_le_bytes([low, high]) as usize
}

// As many levels with their limit as the output has bytes.
fn limit_levels(wide: &[u16; 192], output: &mut [u8])
    requires { length output.old ≤ 192 }
    ensures { output.new ≡ limited_front (length output.old) wide.now }
{
    for (j, level) in output.iter_mut().enumerate() {
        *level = at_most_255(wide[j]);
    }
}

// What the levels of pixels are worked out by: a tone with its tables, and the factors of the luminances so far, 0 where there is none yet.
#[derive(Drop)]
struct Mapper {
    tone: Tone,
    powers: [u64; 640],
    reciprocals: [u64; 128],
    scaled: [u16; 128],
    factors: [u64; 15232],
    ghost tables: { AreTables tone powers reciprocals scaled },
    ghost entries: { IsFactorTable tone factors },
}

impl Mapper {
    // No factor yet, but for the unlit pixels.
    fn new(tone: Tone) -> Mapper
        requires { IsTone tone }
        ensures { result.tone ≡ tone }
    {
        let mut factors = [0; 15232];
        factors[0] = UNLIT_FACTOR;
        Mapper {
            tone,
            powers: power_table(),
            reciprocals: reciprocal_table(),
            scaled: scaled_table(tone),
            factors,
        }
    }

    // The factor of the luminance at an index, which the table keeps.
    fn factor_at(&mut self, index: usize) -> u64
        requires { IsIndex index }
        ensures factor { result ≡ factor_under self.old.tone index }
        ensures tone { self.new.tone ≡ self.old.tone }
    {
        let kept = self.factors[index];
        if kept != 0 {
            return kept;
        }
        let luminance = stored_at(index as u64);
        let display = display_by(&self.scaled, self.tone, luminance);
        let made = factor(&self.reciprocals, display, luminance);
        self.factors[index] = made;
        made
    }

    // The levels of a pixel's words by the factor of its luminance.
    fn pixel_levels(&self, factor: u64, red: u32, green: u32, blue: u32) -> WideLevels
        requires { (factor < 374 * 2 ^ 40) × IsCode (low16 red) × IsCode (low16 green) × IsCode (low16 blue) }
        ensures { LevelsBy factor (pixel_of (word_channel red) (word_channel green) (word_channel blue)) result }
    {
        WideLevels {
            red: wide_level(&self.powers, factor, low_half(red)),
            green: wide_level(&self.powers, factor, low_half(green)),
            blue: wide_level(&self.powers, factor, low_half(blue)),
        }
    }

    // The levels of a block before their limit, by the indices of its luminances.
    #[tactic(auto, using(crate::proofs::LevelBlocks::block_long))]
    fn wide_levels(&mut self, words: &[u32], indices: &[u8], wide: &mut [u16; 192])
        requires { IsBlock words.now indices.now }
        ensures levels { HoldsLevels self.old.tone words.now wide.new }
        ensures tone { self.new.tone ≡ self.old.tone }
    {
        for j in 0..words.len() / 3 {
            let at = 3 * j;
            let index = index_in(indices[at], indices[at + 1]);
            let factor = self.factor_at(index);
            let levels = self.pixel_levels(factor, words[at], words[at + 1], words[at + 2]);
            store_wide(levels, at, wide);
        }
    }

    // The levels of a block, in the place of the indices of its luminances. The limit of a whole block is taken for many levels at a time:
    // there the compiler knows the count.
    #[tactic(auto, using(crate::proofs::LevelBlocks::block_long))]
    fn fill_block(&mut self, words: &[u32], wide: &mut [u16; 192], output: &mut [u8])
        requires { IsBlock words.now output.old }
        ensures levels { output.new ≡ levels_under self.old.tone (word_pixels words.now) }
        ensures tone { self.new.tone ≡ self.old.tone }
    {
        self.wide_levels(words, output, wide);
        if output.len() == 192 {
            limit_levels(wide, &mut output[..192]);
        } else {
            limit_levels(wide, output);
        }
    }
}

// The levels of channel words under a tone, in the place of the indices of their luminances.
pub fn map_levels(words: &[u32], tone: Tone, output: &mut [u8])
    requires { IsBody words.now × IsTone tone × HoldsIndices words.now output.old }
    ensures { output.new ≡ onto (levels_under tone (word_pixels words.now)) output.old }
{
    let mut mapper = Mapper::new(tone);
    let mut wide = [0u16; 192];
    let pixels = words.len() / 3;
    for block in 0..pixels.div_ceil(LEVEL_PIXELS) {
        let p = block * LEVEL_PIXELS;
        let end = (p + LEVEL_PIXELS).min(pixels);
        mapper.fill_block(
            &words[3 * p..3 * end],
            &mut wide,
            &mut output[3 * p..3 * end],
        );
    }
}
