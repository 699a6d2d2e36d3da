// The checks of a page in bands, in their order, and the header of the whole.
ghost use Rattle.std.specs.Prelude.{◌≡◌, ◌≤◌, ◌<◌, min, length, IsOk, MatchResult, Err};
ghost use Rattle.word.specs.Words.{pixels};
ghost use Rattle.strip.specs.Reading.{header_told};
ghost use Rattle.series.specs.Series.{series_of, standing_at};
ghost use Rattle.bands.specs.Joining.{join_tallies};
ghost use Rattle.bands.specs.Checks.{joins, check_band, check_bands, joined_height, tall_header, read_bands, check_tally_bands, check_map_bands};
ghost use Rattle.bands.specs.loops.Walks.{strips_left};

use crate::walk::Strips;
use light::{check_light, enough_for, lit_up_to};
use refusal::{Fault, Refusal, require};
use series::{check_at, strip_at};
use strip::read::{body, header_fields};
use white::same_white;
use word::header::{Header, size_fits};

// Whether a band is like the first one and the joined size within the limits; `above` is the number of rows of the bands above.
#[tactic(auto, unfolding(crate::specs::Checks::joins))]
fn joins_bands(first: Header, above: u64, band: Header) -> bool
    requires { (above ≤ 8192) × (band.height < 16384) }
    ensures { result ≡ joins first above band }
{
    band.width == first.width
        && band.key == first.key
        && same_white(band.white, first.white)
        && size_fits(first.width, above + band.height)
}

// One band: its own checks, then those of joining.
#[tactic(auto, unfolding(crate::specs::Checks::check_band, refusal::specs::Verdicts::and_then))]
fn check_band(row: &[u32], start: usize, first: Header, above: u64) -> Result<(), Fault>
    requires { (start ≤ length row.now) × (above ≤ 8192) }
    ensures { result ≡ check_band first above (standing_at row.now start) }
{
    check_at(row, start)?;
    require(
        joins_bands(first, above, header_fields(strip_at(row, start))),
        Refusal::UnlikeBands,
        0,
    )
}

// A row of bands that passed its checks.
#[derive(Clone, Copy)]
pub(crate) struct Bands<'a> {
    pub(crate) row: &'a [u32],
    ghost accepted: { IsOk (check_bands row.now) },
}

impl<'a> Bands<'a> {
    // The bands of a row, or its refusal.
    pub(crate) fn checked(row: &'a [u32]) -> Result<Bands<'a>, Fault>
        ensures { MatchResult result (λ bands. bands.row.now ≡ row.now) (λ fault. check_bands row.now ≡ Err fault) }
    {
        if row.is_empty() {
            return Err(Refusal::WrongLength.at(0));
        }
        let first = header_fields(row);
        let mut above = 0;
        for band in Strips::of(row) {
            check_band(row, band.start, first, above)?;
            above += header_fields(band.words).height;
        }
        Ok(Bands { row })
    }

    // The bands, each behind the one before.
    pub(crate) fn iter(&self) -> Strips<'a>
        ensures { strips_left result ≡ series_of self.now.row.now }
    {
        Strips::of(self.row)
    }

    // The joined height.
    fn height(&self) -> u64
        ensures { result ≡ joined_height (series_of self.now.row.now) }
    {
        self.iter()
            .map(|band| header_fields(band.words).height)
            .sum()
    }

    // The number of pixels.
    pub(crate) fn pixels(&self) -> u64
        ensures { result ≡ pixels (tall_header self.now.row.now) }
    {
        header_fields(self.row).width * self.height()
    }

    // The number of lit pixels, or `most` where there are more: as soon as it is reached, no further pixel is read.
    fn lit_up_to(&self, most: u64) -> u64
        ensures { result ≡ min most (join_tallies (series_of self.now.row.now)).count }
    {
        let mut lit = 0;
        for band in self.iter() {
            lit += lit_up_to(body(band.words), most - lit);
        }
        lit
    }

    // The light of all bands together.
    fn check_light(&self) -> Result<(), Fault>
        ensures { result ≡ check_tally_bands self.now.row.now }
    {
        let pixels = self.pixels();
        check_light(self.lit_up_to(enough_for(pixels)), pixels)
    }

    // The light, then an output of so many bytes for the levels.
    pub(crate) fn check_map(&self, room: usize) -> Result<(), Fault>
        ensures { result ≡ check_map_bands self.now.row.now room }
    {
        self.check_light()?;
        require(
            (3 * self.pixels()) as usize <= room,
            Refusal::SmallOutput,
            0,
        )
    }
}

// The width, joined height, key and white point of a row of bands, or its refusal.
pub fn header(row: &[u32]) -> Result<Header, Fault>
    ensures answer { result ≡ read_bands row.now }
    ensures told { header_told result ≡ header_told (read_bands row.now) }
{
    let bands = Bands::checked(row)?;
    Ok(Header {
        height: bands.height(),
        ..header_fields(row)
    })
}
