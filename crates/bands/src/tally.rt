// The tally of a page in bands.
ghost use Rattle.std.specs.Prelude.{◌≡◌, []};
ghost use Rattle.average.specs.Tallies.{tally_of};
ghost use Rattle.page.specs.Claims.{TallyPromise};
ghost use Rattle.page.specs.Tallying.{tally_told};
ghost use Rattle.series.specs.Series.{series_of};
ghost use Rattle.bands.specs.Cutting.{tall_strip};
ghost use Rattle.bands.specs.Answers.{tally_bands};
ghost use Rattle.bands.specs.Joining.{join_tallies};

use crate::check::Bands;
use average::join::join;
use average::tally::Tally;
use page::tally::{PageTally, tally_in_light};
use refusal::Fault;
use strip::read::body;

// The tally of no pixel. No `Default`: it is the rule's tally of an empty list.
#[tactic(auto, unfolding(average::specs::Tallies::sum_of, average::specs::Tallies::extremes_of))]
pub(crate) fn no_tally() -> Tally
    ensures { result ≡ tally_of [] }
{
    Tally {
        count: 0,
        sum: 0,
        extremes: None,
    }
}

impl Bands<'_> {
    // The tallies of all bands, joined.
    fn tally(&self) -> Tally
        ensures { result ≡ join_tallies (series_of self.now.row.now) }
    {
        let mut tally = no_tally();
        for band in self.iter() {
            tally = join(tally, body::tally::tally(body(band.words)));
        }
        tally
    }
}

// The number of lit pixels of all bands, the sum of their steps, their extremes and the average, or the row's refusal.
pub fn tally(row: &[u32]) -> Result<PageTally, Fault>
    ensures answer { result ≡ tally_bands row.now }
    ensures told { tally_told result ≡ tally_told (tally_bands row.now) }
    ensures bound { TallyPromise (tall_strip row.now) result }
{
    let bands = Bands::checked(row)?;
    tally_in_light(bands.tally(), bands.pixels())
}
