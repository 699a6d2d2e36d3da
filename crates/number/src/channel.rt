// Channels and pixels by value, and a channel's 16-bit form.
ghost use Rattle.std.specs.Prelude.{◌≡◌};
ghost use Rattle.number.specs.Channels.{code_of, decoded_told, channel_of_code, channel_in};

use refusal::Refusal;

// A channel: black, or lit with an exponent and a mantissa. No `Option`: black is a channel of its own, and `None` would say that there is
// none.
#[derive(Clone, Copy)]
pub enum Channel {
    Black,
    Lit(u8, u8),
}

#[derive(Clone, Copy)]
pub struct Pixel {
    pub red: Channel,
    pub green: Channel,
    pub blue: Channel,
}

// The exponents of lit channels, and their least mantissa.
pub const LEAST_EXPONENT: u16 = 72;

pub const GREATEST_EXPONENT: u16 = 184;

const LEAST_MANTISSA: u16 = 128;

// The channel of a 16-bit number 256E + M, 0 for black.
#[tactic(auto, unfolding(crate::specs::Channels::channel_of_code))]
pub fn code_to_channel(code: u16) -> Result<Channel, Refusal>
    ensures answer { result ≡ channel_of_code code }
    ensures told { decoded_told result ≡ decoded_told (channel_of_code code) }
{
    if code == 0 {
        return Ok(Channel::Black);
    }
    let exponent = code >> 8;
    let mantissa = code % 256;
    if exponent < LEAST_EXPONENT || GREATEST_EXPONENT < exponent || mantissa < LEAST_MANTISSA {
        return Err(Refusal::InvalidChannel);
    }
    Ok(Channel::Lit(exponent as u8, mantissa as u8))
}

// The 16-bit form of a channel.
pub fn channel_to_code(channel: Channel) -> u16
    ensures { result ≡ code_of channel }
{
    match channel {
        Channel::Black => 0,
        Channel::Lit(exponent, mantissa) => 256 * (exponent as u16) + mantissa as u16,
    }
}

// The 16-bit form of what a number stands for; 0, black, for a refusal.
pub fn decoded_code(decoded: Result<Channel, Refusal>) -> u16
    ensures { result ≡ code_of (channel_in decoded) }
{
    decoded.map_or(0, channel_to_code)
}
