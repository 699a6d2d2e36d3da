// A ratio as a plain stored number.
ghost use Rattle.std.specs.Prelude.{◌≡◌, ◌+◌, ◌*◌, ◌^◌, ◌≤◌};
ghost use Rattle.number.proofs.Laws.{◌over◌, unit, ratio_of};
ghost use Rattle.luminance.specs.loops.Ratios.{stored_in};

use number::ratio::{Stored, store_ratio};

// num / den * 2^exp in units of 2^-137, stored: 256 times the exponent, plus the mantissa; 0 where it has no stored number. As one number,
// since with `unwrap_or` of a `Stored` the luminance of a pixel takes 11 in 100 longer.
fn ratio_code(num: u64, den: u64, exp: u16) -> u16
    ensures code { result ≡ 256 * (stored_in (ratio_of (num * 2 ^ exp over den * unit))).exponent
        + (stored_in (ratio_of (num * 2 ^ exp over den * unit))).mantissa }
    ensures byte { (stored_in (ratio_of (num * 2 ^ exp over den * unit))).mantissa ≤ 255 }
{
    let Some(stored) = store_ratio(num, den, exp) else {
        return 0;
    };
    256 * (stored.exponent as u16) + stored.mantissa as u16
}

// The same as a stored number.
pub fn stored_ratio(num: u64, den: u64, exp: u16) -> Stored
    ensures { result ≡ stored_in (ratio_of (num * 2 ^ exp over den * unit)) }
{
    let code = ratio_code(num, den, exp);
    Stored {
        exponent: (code / 256) as u8,
        mantissa: (code % 256) as u8,
    }
}
