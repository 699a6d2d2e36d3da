// Strips one behind another in one lent row of words: where each stands, and its checks there.
#![tactic(auto)]

ghost use Rattle.std.specs.Prelude.{◌≡◌, ◌≤◌, length};
ghost use Rattle.series.specs.Series.{front_strip, moved_by, check_standing, strip_at, standing_at};
ghost use Rattle.series.specs.loops.Walks.{PlacesFit};

use refusal::Fault;
use strip::check::check;
use strip::read::declared_length;

// How many words the strip at the front of a row has: as many as it declares, or as there are.
fn front_length(row: &[u32]) -> usize
    ensures { result ≡ length (front_strip row.now) }
{
    declared_length(row).min(row.len())
}

// The strip that begins at an index of a row.
pub fn strip_at(row: &[u32], start: usize) -> &[u32]
    requires { start ≤ length row.now }
    ensures { result.now ≡ strip_at row.now start }
{
    let count = front_length(&row[start..]);
    &row[start..start + count]
}

// A verdict on a strip that begins at an index of a row, its places counted from the row's start.
fn moved_by(start: usize, verdict: Result<(), Fault>) -> Result<(), Fault>
    requires { PlacesFit start verdict }
    ensures { result ≡ moved_by start verdict }
{
    verdict.map_err(|fault| fault.refusal.at(start + fault.index))
}

// The strip that begins at an index of a row is checked where it stands.
#[tactic(auto, using(crate::proofs::Strips::places_fit), unfolding(crate::specs::Series::check_standing))]
pub fn check_at(row: &[u32], start: usize) -> Result<(), Fault>
    requires { start ≤ length row.now }
    ensures { result ≡ check_standing (standing_at row.now start) }
{
    moved_by(start, check(strip_at(row, start)))
}
