// The index of the luminance of a pixel whose channels lie near one another, in 16-bit and 32-bit numbers and without a branch, so that a
// compiler can work out several at a time.
ghost use Rattle.std.specs.Prelude.{◌≡◌, ◌*◌, ◌%◌, ◌^◌, ◌<◌, ◌≤◌};
ghost use Rattle.luminance.specs.loops.Codes.{octave_index, near_place, near_sum, near_index};

// The power of two of the last three binary digits of i.
fn power(i: u16) -> u16
    ensures power { result ≡ 2 ^ (i % 8) }
    ensures bound { result ≤ 128 }
{
    1 << (i % 8)
}

// A value times that power.
fn moved(value: u16, i: u16) -> u32
    ensures product { result ≡ value * 2 ^ (i % 8) }
    ensures bound { result ≤ 128 * value }
{
    value as u32 * power(i) as u32
}

// The place of a channel's exponent, where green's is at 4. It is 8 or more for an exponent that lies further away.
fn near_place(code: u16, green: u16) -> u16
    ensures { result ≡ near_place code green }
{
    (code / 256 + 4).wrapping_sub(green / 256)
}

// The weighted sum of three channels by their codes and the places r and b of red and blue. Each weight is multiplied by twice the mantissa
// and one.
fn near_sum(red: u16, green: u16, blue: u16, r: u16, b: u16) -> u32
    ensures sum { result ≡ near_sum red green blue r b }
    ensures bound { result < 2048 * 1600 }
{
    moved(54 * (red % 256) + 27, r)
        + (134 * (green % 256) + 67) as u32 * 16
        + moved(12 * (blue % 256) + 6, b)
}

// How far the index of a quotient from 128 to 2047 lies behind that of an octave's beginning.
fn octave_index(quotient: u16) -> u16
    ensures { result ≡ octave_index quotient }
{
    let low = quotient.min(quotient / 2 + 128);
    let high = (quotient / 4 + 256).min(quotient / 8 + 384);
    low.min(high)
}

// 128 * 68: a quotient of 128 stands for the exponent below green's, and indices begin at 66.
const FIRST_OCTAVE: u16 = 8704;

// The index of a pixel's luminance by the codes of its channels, or a multiple of 128 where it is not worked out: where red or blue lie
// further from green than 4 exponents below or 3 above, where all are black, and where the mantissa is 128.
pub fn near_index(red: u16, green: u16, blue: u16) -> u16
    ensures { result ≡ near_index red green blue }
{
    let r = near_place(red, green);
    let b = near_place(blue, green);
    let sum = near_sum(red, green, blue, r, b);
    let octave = octave_index((sum / 64) as u16 / 25);
    let exponent = green / 256;
    let index = (128 * exponent + octave).wrapping_sub(FIRST_OCTAVE);
    let near_red = if r < 8 { index } else { 0 };
    let near = if b < 8 { near_red } else { 0 };
    if exponent == 0 { 0 } else { near }
}
