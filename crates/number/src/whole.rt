// The channel of a whole number times a power of two, by shifts alone.
ghost use Rattle.std.specs.Prelude.{◌≡◌, ◌*◌, ◌^◌, ◌<◌};
ghost use Rattle.number.specs.Fractions.{◌over◌};
ghost use Rattle.number.specs.Storing.{Scales};
ghost use Rattle.number.specs.Channels.{channel_of, decoded_told};

use crate::channel::{Channel, GREATEST_EXPONENT, LEAST_EXPONENT};
use refusal::Refusal;

// The shift that brings a whole number above 2^62 and at most to 2^63, with the mantissa that it then has.
#[derive(Clone, Copy)]
struct Shifted {
    shift: u8,
    mantissa: u8,
}

#[tactic(auto, using(crate::proofs::Shifts::halved))]
fn shift_up(m: u64) -> Shifted
    requires { (0 < m) × (m < 2 ^ 32) }
    ensures { Scales (m over 1) result.shift 63 result.mantissa }
{
    let shift = (2 * m - 1).leading_zeros();
    let digits = (m << shift) >> 55;
    Shifted {
        shift: shift as u8,
        mantissa: digits.min(255) as u8,
    }
}

// The channel of m * 2^up / 2^down.
pub fn whole_to_channel(m: u32, up: u8, down: u8) -> Result<Channel, Refusal>
    ensures answer { result ≡ channel_of (m * 2 ^ up over 2 ^ down) }
    ensures told { decoded_told result ≡ decoded_told (channel_of (m * 2 ^ up over 2 ^ down)) }
{
    if m == 0 {
        return Ok(Channel::Black);
    }
    let s = shift_up(m as u64);
    let high = up as u16 + 63 + 128;
    let low = down as u16 + s.shift as u16;
    if high < low + LEAST_EXPONENT {
        return Ok(Channel::Black);
    }
    if low + GREATEST_EXPONENT < high {
        return Err(Refusal::TooBright);
    }
    Ok(Channel::Lit((high - low) as u8, s.mantissa))
}
