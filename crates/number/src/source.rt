// The numbers of a source picture as channels: IEEE halves and singles, and RGBE bytes. Any bits are taken.
ghost use Rattle.std.specs.Prelude.{◌≡◌, ◌+◌, ◌^◌, ◌<◌};
ghost use Rattle.number.specs.Channels.{decoded_told};
ghost use Rattle.number.specs.Sources.{channel_of_value, field_value, half_value, single_value, rgbe_value};
ghost use Rattle.number.specs.loops.Halves.{half_code, plain_half_code};

use crate::channel::{Channel, decoded_code};
use crate::whole::whole_to_channel;
use refusal::Refusal;

// An IEEE format: the weight of the hidden digit, the exponent of all ones, and the subnormal step 2^-low.
#[derive(Clone, Copy)]
struct Format {
    hidden: u32,
    ones: u8,
    low: u8,
}

const HALF: Format = Format {
    hidden: 1024,
    ones: 31,
    low: 24,
};

const SINGLE: Format = Format {
    hidden: 8388608,
    ones: 255,
    low: 149,
};

impl Format {
    // The channel of a number of this format, by its sign, exponent and fraction.
    #[tactic(auto, using(crate::proofs::Sources::refused, crate::proofs::Sources::negative, crate::proofs::Sources::positive, crate::proofs::Sources::subnormal, crate::proofs::Sources::normal))]
    fn to_channel(self, sign: u32, exponent: u8, fraction: u32) -> Result<Channel, Refusal>
        requires { self.hidden + fraction < 2 ^ 32 }
        ensures { result ≡ channel_of_value (field_value self.hidden self.ones self.low sign exponent fraction) }
    {
        if exponent == self.ones {
            return Err(Refusal::NotANumber);
        }
        if sign != 0 {
            return Ok(Channel::Black);
        }
        if exponent == 0 {
            return whole_to_channel(fraction, 0, self.low);
        }
        whole_to_channel(self.hidden + fraction, exponent - 1, self.low)
    }
}

// A half: 1, 5 and 10 bits.
pub fn half_to_channel(bits: u16) -> Result<Channel, Refusal>
    ensures answer { result ≡ channel_of_value (half_value bits) }
    ensures told { decoded_told result ≡ decoded_told (channel_of_value (half_value bits)) }
{
    HALF.to_channel(
        (bits >> 15) as u32,
        ((bits >> 10) % 32) as u8,
        (bits % 1024) as u32,
    )
}

// The 16-bit form of the channel of a half that is no positive subnormal number, without a branch; 0 where the half is refused. A normal
// half has its own exponent and first digits; a power of two has the exponent below, and the mantissa 255.
#[tactic(auto, unfolding(crate::specs::loops::Halves::plain_half_code))]
pub fn plain_half_code(bits: u16) -> u16
    ensures { result ≡ plain_half_code bits }
{
    let digits = bits >> 3;
    let more = if bits % 1024 == 0 { 0 } else { 129 };
    let code = digits + (digits >> 7) % 32 * 128 + 29183 + more;
    let normal = if bits < 31744 { code } else { 0 };
    if bits == 0 { 0 } else { normal }
}

// The same for any half. One less than its bits, and 65535 for 0, is below 1023 for the positive subnormal numbers alone.
#[tactic(auto, using(crate::proofs::Halves::plain_half))]
pub fn half_code(bits: u16) -> u16
    ensures { result ≡ half_code bits }
{
    if bits.wrapping_sub(1) < 1023 {
        decoded_code(half_to_channel(bits))
    } else {
        plain_half_code(bits)
    }
}

// A single: 1, 8 and 23 bits.
pub fn single_to_channel(bits: u32) -> Result<Channel, Refusal>
    ensures answer { result ≡ channel_of_value (single_value bits) }
    ensures told { decoded_told result ≡ decoded_told (channel_of_value (single_value bits)) }
{
    SINGLE.to_channel(bits >> 31, ((bits >> 23) % 256) as u8, bits % 8388608)
}

// A byte of an RGBE pixel beside the pixel's exponent byte.
#[tactic(auto, using(crate::proofs::Channels::black), unfolding(crate::specs::Sources::rgbe_value, crate::specs::Sources::channel_of_value, crate::specs::Storing::unit))]
pub fn rgbe_to_channel(byte: u8, exponent: u8) -> Result<Channel, Refusal>
    ensures answer { result ≡ channel_of_value (rgbe_value byte exponent) }
    ensures told { decoded_told result ≡ decoded_told (channel_of_value (rgbe_value byte exponent)) }
{
    if exponent == 0 {
        return Ok(Channel::Black);
    }
    whole_to_channel(2 * (byte as u32) + 1, exponent, 137)
}
