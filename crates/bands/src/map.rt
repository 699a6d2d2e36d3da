// A page in bands mapped to levels.
ghost use Rattle.std.specs.Prelude.{◌≡◌, ◌*◌, ◌≤◌, length};
ghost use Rattle.refusal.specs.Output.{onto, after};
ghost use Rattle.refusal.specs.Verdicts.{report_of};
ghost use Rattle.word.specs.Words.{pixels};
ghost use Rattle.tone.specs.Levels.{IsTone};
ghost use Rattle.body.specs.Levels.{levels_under};
ghost use Rattle.body.specs.loops.Indices.{indices_of};
ghost use Rattle.page.specs.Claims.{MapPromise};
ghost use Rattle.series.specs.Series.{series_of};
ghost use Rattle.bands.specs.Checks.{tall_header, check_map_bands};
ghost use Rattle.bands.specs.Cutting.{tall_strip};
ghost use Rattle.bands.specs.Answers.{joined_levels};
ghost use Rattle.bands.specs.Joining.{join_tallies};
ghost use Rattle.bands.specs.loops.Walks.{joined_pixels, HoldsAll};

use crate::check::Bands;
use crate::tally::no_tally;
use average::join::join;
use average::tally::Tally;
use body::levels::map_levels;
use body::tally::tally_keeping;
use page::map::tone_of;
use refusal::Fault;
use strip::read::{body, header_fields};
use tone::tone::Tone;

impl Bands<'_> {
    // The tallies of all bands, joined, with the indices of all pixels' luminances in the front of the output.
    // `done` is no count of turns: the parts of the bands are of unlike length, so that no iterator over the output gives them.
    fn keep_tallies(&self, output: &mut [u8]) -> Tally
        requires { 3 * pixels (tall_header self.now.row.now) ≤ length output.old }
        ensures tally { result ≡ join_tallies (series_of self.now.row.now) }
        ensures content { output.new ≡ onto (indices_of (joined_pixels (series_of self.now.row.now))) output.old }
    {
        let mut tally = no_tally();
        let mut done: usize = 0;
        for band in self.iter() {
            let words = body(band.words);
            let more = tally_keeping(words, &mut output[done..]);
            tally = join(tally, more);
            done += words.len();
        }
        tally
    }

    // The levels of all bands under a tone, each in its part of the output, in the place of the indices of its luminances.
    // `done` as above.
    fn map_each(&self, tone: Tone, output: &mut [u8])
        requires { IsTone tone × HoldsAll self.now.row.now output.old }
        ensures { output.new ≡ onto (levels_under tone (joined_pixels (series_of self.now.row.now))) output.old }
    {
        let mut done: usize = 0;
        for band in self.iter() {
            let words = body(band.words);
            map_levels(words, tone, &mut output[done..]);
            done += words.len();
        }
    }
}

// Three level bytes for each pixel of all bands, into the front of the output; a refusal leaves the output as it was.
// A trait over a strip and a row of bands is no plainer: each of the four steps has a contract of its own, and `tone_of` is shared already.
pub fn map(row: &[u32], output: &mut [u8]) -> Result<(), Fault>
    ensures verdict { result ≡ check_map_bands row.now (length output.old) }
    ensures outcome { report_of result ≡ report_of (check_map_bands row.now (length output.old)) }
    ensures content { output.new ≡ after result (joined_levels row.now) output.old }
    ensures bound { MapPromise (tall_strip row.now) result output.new }
{
    let bands = Bands::checked(row)?;
    bands.check_map(output.len())?;
    let tally = bands.keep_tallies(output);
    bands.map_each(tone_of(header_fields(row), tally), output);
    Ok(())
}
