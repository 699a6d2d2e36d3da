// Pages tallied and mapped.
ghost use Rattle.std.specs.Prelude.{◌≡◌, length};
ghost use Rattle.page.specs.Checks.{check_map};
ghost use Rattle.page.specs.Mapping.{strip_levels};
ghost use Rattle.page.specs.Tallying.{tally_strip};
ghost use Rattle.answers.specs.Answers.{tally_answer, Reports};
ghost use Rattle.answers.specs.Claims.{TallyBound, MapBound};

use answers::tallies::TallyAnswer;
use page::map::map;
use page::tally::tally;
use refusal::{Outcome, report};

// The number of lit pixels of a strip, the sum of their steps, the average and the extremes.
#[tactic(auto, using(answers::proofs::Laws::tally_bounded))]
#[unsafe(no_mangle)]
pub extern "C" fn dofnihet_tally_of(strip: &[u32]) -> TallyAnswer
    ensures answer { result ≡ tally_answer (tally_strip strip.now) }
    ensures bound { TallyBound strip.now result }
{
    tally(strip).into()
}

// Three level bytes a pixel; a refusal leaves the output as it was.
#[unsafe(no_mangle)]
pub extern "C" fn dofnihet_map(strip: &[u32], output: &mut [u8]) -> Outcome
    ensures answer { Reports (check_map strip.now (length output.old)) (strip_levels strip.now) output.old result output.new }
    ensures bound { MapBound strip.now result output.new }
{
    report(map(strip, output))
}
