// Step 2: the steps of a luminance; the tally of the lit pixels.
ghost use Rattle.std.specs.Prelude.{◌≡◌, ◌*◌, ◌^◌, ◌≤◌, ◌<◌};
ghost use Rattle.std.proofs.Math.IntN.{sub_ℕ};
ghost use Rattle.number.proofs.Laws.{IsMantissa};
ghost use Rattle.average.specs.loops.Entries.{IsLogTable};
ghost use Rattle.average.specs.loops.Sums.{raised_steps};

use number::ratio::Stored;

// The darkest and the brightest of one luminance or more.
#[derive(Clone, Copy)]
pub struct Extremes {
    pub darkest: Stored,
    pub brightest: Stored,
}

// A tally: how many pixels are lit, the sum of their steps, and their extremes; none where no pixel is lit. What it keeps to (`IsTally`) stays
// a premise, not an invariant: the public calls that take one, listed in docs/DECISIONS.md, promise for any that does.
#[derive(Clone, Copy)]
pub struct Tally {
    pub count: u64,
    pub sum: i64,
    pub extremes: Option<Extremes>,
}

// The steps of a luminance, 256(E - 136) + T[M], and 34,816 more, so that they are not negative.
pub fn raised_steps(logs: &[u16; 128], luminance: Stored) -> u64
    requires { IsLogTable logs.now × IsMantissa luminance.mantissa }
    ensures { result ≡ raised_steps luminance }
{
    let log = logs[(luminance.mantissa - 128) as usize];
    256 * (luminance.exponent as u64) + log as u64
}

// The sum of the steps of `count` luminances, from that of their raised steps.
pub fn lowered_sum(count: u64, raised: u64) -> i64
    requires { (count ≤ 2 ^ 40) × (raised < 2 ^ 63) }
    ensures { result ≡ sub_ℕ raised (34816 * count) }
{
    raised as i64 - (34816 * count) as i64
}
