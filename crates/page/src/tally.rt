// The tally of a page.
ghost use Rattle.std.specs.Prelude.{◌≡◌};
ghost use Rattle.average.specs.loops.Sums.{IsTally};
ghost use Rattle.light.specs.Light.{check_light};
ghost use Rattle.page.specs.Tallying.{tally_under, tally_strip, tally_told};
ghost use Rattle.page.specs.Claims.{TallyPromise};

use average::average::{Average, average_of};
use average::tally::Tally;
use light::check_light;
use refusal::Fault;
use strip::check::check;
use strip::read::body;

// The tally of a page with its average.
#[derive(Clone, Copy)]
pub struct PageTally {
    pub tally: Tally,
    pub average: Option<Average>,
}

// The tally of so many pixels with its average, or their refusal where too few are lit.
#[tactic(auto, using(crate::proofs::Handed::has_average))]
pub fn tally_in_light(tally: Tally, pixels: u64) -> Result<PageTally, Fault>
    requires { IsTally tally }
    ensures { result ≡ tally_under (check_light tally.count pixels) tally }
{
    check_light(tally.count, pixels)?;
    Ok(PageTally {
        tally,
        average: average_of(tally.count, tally.sum),
    })
}

// The number of lit pixels of a strip, the sum of their steps, their extremes and the average, or the strip's refusal.
pub fn tally(strip: &[u32]) -> Result<PageTally, Fault>
    ensures answer { result ≡ tally_strip strip.now }
    ensures told { tally_told result ≡ tally_told (tally_strip strip.now) }
    ensures bound { TallyPromise strip.now result }
{
    check(strip)?;
    let words = body(strip);
    tally_in_light(body::tally::tally(words), (words.len() / 3) as u64)
}
