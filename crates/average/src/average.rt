// Step 3: the average of a tally's steps, and the stored average.
ghost use Rattle.std.specs.Prelude.{◌≡◌, ◌<◌, pos, nat_abs, ◌+ℤ◌, ◌≤ℤ◌};
ghost use Rattle.average.specs.Averages.{stored_average, average_steps, average_of, IsAverage, average_told};
ghost use Rattle.average.specs.loops.Sums.{HasAverage};

use crate::floor::floor_div;
use crate::tables::root;
use number::ratio::Stored;

// The average of one luminance or more: in steps, and stored.
#[derive(Clone, Copy)]
pub struct Average {
    pub steps: i64,
    pub stored: Stored,
}

// The exponent q + bias.
fn exponent(q: i64, bias: i64) -> u8
    requires { (pos 0 ≤ℤ (q +ℤ bias)) × ((q +ℤ bias) ≤ℤ pos 255) }
    ensures { result ≡ nat_abs (q +ℤ bias) }
{
    (q + bias) as u8
}

// The stored average of A = 256q + f steps.
#[tactic(auto, unfolding(crate::specs::Averages::stored_average))]
fn stored_average(steps: i64) -> Stored
    requires { IsAverage steps }
    ensures { result ≡ stored_average steps }
{
    let q = steps.div_euclid(256);
    let f = steps.rem_euclid(256);
    if f == 0 {
        return Stored {
            exponent: exponent(q, 128),
            mantissa: 255,
        };
    }
    Stored {
        exponent: exponent(q, 129),
        mantissa: root(f as u8),
    }
}

// The stored average of one luminance or more, whose steps add up to `sum`.
pub fn lit_average(count: u64, sum: i64) -> Stored
    requires { (0 < count) × HasAverage count sum }
    ensures { result ≡ stored_average (average_steps count sum) }
{
    stored_average(floor_div(sum, count))
}

// The average of `count` luminances whose steps add up to `sum`; none where there are none.
#[tactic(auto, unfolding(crate::specs::Averages::average_of))]
pub fn average_of(count: u64, sum: i64) -> Option<Average>
    requires { HasAverage count sum }
    ensures answer { result ≡ average_of count sum }
    ensures told { average_told result ≡ average_told (average_of count sum) }
{
    if count == 0 {
        return None;
    }
    let steps = floor_div(sum, count);
    Some(Average {
        steps,
        stored: stored_average(steps),
    })
}
