// Fold-outs, pages in bands: header, tally and levels of the one tall page.
ghost use Rattle.std.specs.Prelude.{◌≡◌, length};
ghost use Rattle.answers.specs.Answers.{header_answer, tally_answer, Reports};
ghost use Rattle.answers.specs.Claims.{TallyBound, MapBound};
ghost use Rattle.bands.specs.Checks.{read_bands, check_map_bands};
ghost use Rattle.bands.specs.Cutting.{tall_strip};
ghost use Rattle.bands.specs.Answers.{tally_bands, joined_levels};

use answers::headers::HeaderAnswer;
use answers::tallies::TallyAnswer;
use bands::check::header;
use bands::map::map;
use bands::tally::tally;
use refusal::{Outcome, report};

// Width, joined height, key and white point of a row of bands.
#[unsafe(no_mangle)]
pub extern "C" fn dofnihet_header_of_bands(bands: &[u32]) -> HeaderAnswer
    ensures { result ≡ header_answer (read_bands bands.now) }
{
    header(bands).into()
}

// The number of lit pixels of all bands, the sum of their steps, the average and the extremes.
#[tactic(auto, using(answers::proofs::Laws::tally_bounded))]
#[unsafe(no_mangle)]
pub extern "C" fn dofnihet_tally_of_bands(bands: &[u32]) -> TallyAnswer
    ensures answer { result ≡ tally_answer (tally_bands bands.now) }
    ensures bound { TallyBound (tall_strip bands.now) result }
{
    tally(bands).into()
}

// Three level bytes for each pixel of all bands; a refusal leaves the output as it was.
#[unsafe(no_mangle)]
pub extern "C" fn dofnihet_map_bands(bands: &[u32], output: &mut [u8]) -> Outcome
    ensures answer { Reports (check_map_bands bands.now (length output.old)) (joined_levels bands.now) output.old result output.new }
    ensures bound { MapBound (tall_strip bands.now) result output.new }
{
    report(map(bands, output))
}
