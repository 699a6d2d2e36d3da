// The tally of two lists of luminances one after the other, from theirs.
ghost use Rattle.std.specs.Prelude.{◌≡◌};
ghost use Rattle.average.specs.Tallies.{join_extremes, join};
ghost use Rattle.average.specs.loops.Sums.{HaveMantissas, IsTally};

use crate::tally::{Extremes, Tally};

// The extremes of both.
#[tactic(auto, using(crate::proofs::Order::darker_is, crate::proofs::Order::brighter_is))]
fn join_extremes(a: Option<Extremes>, b: Option<Extremes>) -> Option<Extremes>
    requires { HaveMantissas a × HaveMantissas b }
    ensures { result ≡ join_extremes a b }
{
    match (a, b) {
        (None, _) => b,
        (_, None) => a,
        (Some(first), Some(second)) => Some(Extremes {
            darkest: first.darkest.min(second.darkest),
            brightest: first.brightest.max(second.brightest),
        }),
    }
}

// The tally of both: 64 bits hold the sum of 2^41 luminances.
pub fn join(t: Tally, u: Tally) -> Tally
    requires { IsTally t × IsTally u }
    ensures { result ≡ join t u }
{
    Tally {
        count: t.count + u.count,
        sum: t.sum + u.sum,
        extremes: join_extremes(t.extremes, u.extremes),
    }
}
