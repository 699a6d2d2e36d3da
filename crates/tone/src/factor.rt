// Step 6 by factors: one for each luminance, from which the level of a channel needs no division.
ghost use Rattle.std.specs.Prelude.{◌≡◌, ◌+◌, ◌*◌, ◌^◌, ◌≤◌, ◌<◌, min};
ghost use Rattle.tone.specs.loops.Factors.{reciprocal_of, offset_of, factor_by, power_at, wide_level, IsPowerTable, IsReciprocalTable};

use number::ratio::Stored;

// 2^40. A factor is its offset times this, plus its scale. One number, since a table of 15,232 is kept, in which 0 stands for none yet.
const OFFSET_UNIT: u64 = 1099511627776;

// 2^46. A level is a scale times a channel's value times a power, over this.
const LEVEL_UNIT: u64 = 70368744177664;

// The power of two at an offset plus a channel exponent.
#[tactic(auto, unfolding(crate::specs::loops::Factors::power_at))]
fn power_at(i: usize) -> u64
    ensures { result ≡ power_at i }
{
    if i < 374 { 0 } else { 1 << (i.min(385) - 374) }
}

// The powers of all of them: those below 374 stay 0. A loop, as the other tables: by `array::from_fn` the proof did not close.
pub fn power_table() -> [u64; 640]
    ensures { IsPowerTable result }
{
    let mut powers = [0; 640];
    for i in 374..640 {
        powers[i] = power_at(i);
    }
    powers
}

// 2^28. Every reciprocal is below.
const RECIPROCAL_UNIT: u64 = 268435456;

// 255 / (2M + 1) in 28 binary places, rounded up.
fn reciprocal(mantissa: u64) -> u64
    requires { mantissa ≤ 255 }
    ensures { result ≡ reciprocal_of mantissa }
{
    (255 * RECIPROCAL_UNIT).div_ceil(2 * mantissa + 1)
}

// The reciprocals of the mantissas 128 to 255, at M - 128.
pub fn reciprocal_table() -> [u64; 128]
    ensures { IsReciprocalTable result }
{
    let mut reciprocals = [0; 128];
    for (k, entry) in reciprocals.iter_mut().enumerate() {
        *entry = reciprocal(128 + k as u64);
    }
    reciprocals
}

// The offset of a factor: the difference of the exponents, plus 255, at most 373.
fn offset(display: Stored, luminance: Stored) -> u64
    ensures { result ≡ offset_of display luminance }
{
    let difference = display.exponent as u64 + 255 - luminance.exponent as u64;
    difference.min(373)
}

// The factor of a luminance and its display luminance: what step 6 needs of both.
#[tactic(auto, unfolding(crate::specs::loops::Factors::factor_by))]
pub fn factor(reciprocals: &[u64; 128], display: Stored, luminance: Stored) -> u64
    ensures { result ≡ factor_by reciprocals.now display luminance }
{
    let entry = reciprocals[(luminance.mantissa % 128) as usize] % RECIPROCAL_UNIT;
    let scale = (2 * (display.mantissa as u64) + 1) * entry;
    scale + offset(display, luminance) * OFFSET_UNIT
}

// Step 6 up to its limit: the level of a channel, given by its code, in a pixel with this factor, before 255 is taken for more. A factor of
// scale 0 gives level 0.
#[tactic(auto, using(crate::proofs::Powers::products), unfolding(crate::specs::loops::Factors::wide_level))]
pub fn wide_level(powers: &[u64; 640], factor: u64, code: u16) -> u16
    requires { IsPowerTable powers.now × (factor < 374 * 2 ^ 40) }
    ensures { result ≡ wide_level factor code }
{
    let scale = factor % OFFSET_UNIT;
    let offset = (factor / OFFSET_UNIT) as usize;
    let exponent = (code / 256) as usize;
    let value = 2 * ((code % 256) as u64) + 1;
    ((scale * value * powers[exponent + offset] + LEVEL_UNIT / 2) / LEVEL_UNIT) as u16
}

// The limit of step 6.
pub fn at_most_255(level: u16) -> u8
    ensures { result ≡ min 255 level }
{
    level.min(255) as u8
}
