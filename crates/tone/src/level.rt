// Steps 4 and 5: scaled luminance and display luminance.
ghost use Rattle.std.specs.Prelude.{◌≡◌, Some, true, ◌*◌, ◌^◌, ◌≤◌, ◌<◌, min};
ghost use Rattle.number.proofs.Laws.{◌over◌, IsMantissa, unit, stored_of};
ghost use Rattle.white.specs.Whites.{white_fits};
ghost use Rattle.tone.specs.Levels.{IsTone, scaled_of, reinhard, white_point, curve_of, display_of, display_under};
ghost use Rattle.tone.specs.Claims.{IsScaled};
ghost use Rattle.tone.specs.loops.ScaledTables.{scaled_code, IsScaledTable};
ghost use Rattle.tone.specs.loops.Quotients.{IsQuotient};
ghost use Rattle.luminance.specs.Pixels.{IsLuminance};

use crate::tone::Tone;
use luminance::ratio::stored_ratio;
use number::ratio::Stored;

// Step 4: K/1000 times luminance over average.
fn scaled_luminance(tone: Tone, luminance: Stored) -> Stored
    requires { IsTone tone × IsLuminance luminance }
    ensures { result ≡ scaled_of tone luminance }
{
    stored_ratio(
        tone.key * (2 * (luminance.mantissa as u64) + 1),
        1000 * (2 * (tone.average.mantissa as u64) + 1),
        137 + luminance.exponent as u16 - tone.average.exponent as u16,
    )
}

// v * 2^s.
fn shift_left(v: u64, s: u64) -> u64
    requires { (s < 64) × (v * 2 ^ s < 2 ^ 64) }
    ensures { result ≡ v * 2 ^ s }
{
    v << s
}

// Step 5 divides where L has these exponents, the middle of three cases.
const LEAST_DIVIDED: u8 = 114;

const GREATEST_DIVIDED: u8 = 152;

// 1 in units of 2^(114 - 137), of which L is a whole number from exponent 114 on.
const ONE: u64 = 8388608;

// L / (1 + L) of L = value * 2^exponent units of 2^-137, divided in 64-bit numbers.
fn divided(value: u64, exponent: u64) -> Stored
    requires { (257 ≤ value) × (value ≤ 511) × (114 ≤ exponent) × (exponent ≤ 152) }
    ensures { result ≡ stored_of (reinhard (value * 2 ^ exponent over unit)) }
{
    let whole = shift_left(value, exponent - LEAST_DIVIDED as u64);
    stored_ratio(whole, ONE + whole, 137)
}

// Step 5 of a page without a white point, L / (1 + L), by the cases of source document 004, section 3.3, in the stored exponent E of L:
// (i) 136 - E > 22, that is E below 114; (ii) 136 - E < -16, E above 152; (iii) between. What 004 leaves out of the denominator in (i) and
// (ii) makes no difference to what is stored, L itself and (128,255). In (iii) it approximates, in fixed point of 32 bits; here the quotient
// is exact.
#[tactic(auto, using(crate::proofs::Displays::plain_dark, crate::proofs::Displays::plain_bright))]
fn plain_display(scaled: Stored) -> Stored
    requires { IsScaled scaled }
    ensures { result ≡ display_of reinhard scaled }
{
    if scaled.exponent < LEAST_DIVIDED {
        return scaled;
    }
    if GREATEST_DIVIDED < scaled.exponent {
        return Stored {
            exponent: 128,
            mantissa: 255,
        };
    }
    divided(2 * (scaled.mantissa as u64) + 1, scaled.exponent as u64)
}

// The cases of a white point take `tenths`, a value and an exponent: each has other limits, which a struct of the three would not hold.
// L(1 + L/w^2) / (1 + L) of L = part / one, where `one` is 1 in units of 2^(exponent - 137), divided in 64-bit numbers.
fn white_quotient(tenths: u64, part: u64, one: u64, exponent: u64) -> Stored
    requires { (10 ≤ tenths) × (tenths ≤ 1000) × IsQuotient part one exponent }
    ensures { result ≡ stored_of (white_point tenths (part * 2 ^ exponent over unit)) }
{
    let square = tenths * tenths;
    stored_ratio(
        part * (square * one + 100 * part),
        square * (one + part),
        exponent as u16,
    )
}

// The same of L = value * 2^exponent units of 2^-137, in the middle case: up to exponent 136 in units of which L is
// `value`, from 137 on in ones.
fn white_divided(tenths: u64, value: u64, exponent: u64) -> Stored
    requires { (10 ≤ tenths) × (tenths ≤ 1000) × (257 ≤ value) × (value ≤ 511) × (114 ≤ exponent) × (exponent ≤ 152) }
    ensures { result ≡ stored_of (white_point tenths (value * 2 ^ exponent over unit)) }
{
    let units = exponent.min(137);
    let part = shift_left(value, exponent - units);
    let one = shift_left(1, 137 - units);
    white_quotient(tenths, part, one, units)
}

// The same above that case, where L is whole, for a W above 10. W^2 times the display luminance is 100L + W^2 - 100, less a
// fraction between 0 and 1. What is stored is the same for every such fraction: it is taken as 1/2.
fn white_near(tenths: u64, value: u64, exponent: u64) -> Stored
    requires { (10 < tenths) × (tenths ≤ 1000) × (257 ≤ value) × (value ≤ 511) × (152 < exponent) × (exponent < 170) }
    ensures { result ≡ stored_of (white_point tenths (value * 2 ^ exponent over unit)) }
{
    let square = tenths * tenths;
    let whole = shift_left(value, exponent - 137);
    stored_ratio(200 * whole + 2 * square - 201, 2 * square, 137)
}

// From this exponent on, what is stored does not depend either on how far W^2 times the display luminance lies above 100L: by more than 0 and
// less than 2^20.
const LEAST_FAR: u8 = 170;

// The same there: 100L is 819200 * value in units of 2^(exponent - 150), of 2^20 or more, and half a unit is taken for what lies above it.
fn white_far(tenths: u64, value: u64, exponent: u64) -> Stored
    requires { (10 < tenths) × (tenths ≤ 1000) × (257 ≤ value) × (value ≤ 511) × (170 ≤ exponent) × (exponent ≤ 246) }
    ensures { result ≡ stored_of (white_point tenths (value * 2 ^ exponent over unit)) }
{
    let square = tenths * tenths;
    stored_ratio(2 * (819200 * value) + 1, 2 * square, (exponent - 13) as u16)
}

// Step 5 of a page with a white point, by the same cases: in (i) L itself; in (iii) an exact quotient; in (ii) by those above. With the white
// point 1, L(1 + L) / (1 + L) is L itself.
#[tactic(auto, using(white::proofs::Limits::white_limits))]
fn white_display(tenths: u64, scaled: Stored) -> Stored
    requires { (white_fits (Some tenths) ≡ true) × IsScaled scaled }
    ensures { result ≡ display_of (white_point tenths) scaled }
{
    let exponent = scaled.exponent as u64;
    if exponent < LEAST_DIVIDED as u64 {
        return scaled;
    }
    if tenths == 10 {
        return scaled;
    }
    let value = 2 * (scaled.mantissa as u64) + 1;
    if exponent <= GREATEST_DIVIDED as u64 {
        return white_divided(tenths, value, exponent);
    }
    if exponent < LEAST_FAR as u64 {
        return white_near(tenths, value, exponent);
    }
    white_far(tenths, value, exponent)
}

// Step 5: the display luminance by the curve of the page. `IsScaled` and `white_fits` stay premises: a type for them would be made once and
// opened at once.
fn display_luminance(white: Option<u64>, scaled: Stored) -> Stored
    requires { (white_fits white ≡ true) × IsScaled scaled }
    ensures { result ≡ display_of (curve_of white) scaled }
{
    match white {
        None => plain_display(scaled),
        Some(tenths) => white_display(tenths, scaled),
    }
}

// The exponent of the luminances whose scaled luminances stand in a table.
const TABLE_EXPONENT: u8 = 128;

// 256 times the exponent plus the mantissa of the scaled luminance of (128, M).
#[tactic(auto, unfolding(crate::specs::loops::ScaledTables::scaled_code))]
fn scaled_code(tone: Tone, mantissa: u8) -> u16
    requires { IsTone tone × IsMantissa mantissa }
    ensures { result ≡ scaled_code tone mantissa }
{
    let luminance = Stored {
        exponent: TABLE_EXPONENT,
        mantissa,
    };
    let scaled = scaled_luminance(tone, luminance);
    256 * (scaled.exponent as u16) + scaled.mantissa as u16
}

// The codes of the mantissas 128 to 255, at M - 128. Codes and not `Stored`s: `IsScaledTable`, which callers are promised, is of numbers.
pub fn scaled_table(tone: Tone) -> [u16; 128]
    requires { IsTone tone }
    ensures { IsScaledTable tone result }
{
    let mut codes = [0; 128];
    for (k, code) in codes.iter_mut().enumerate() {
        *code = scaled_code(tone, (128 + k) as u8);
    }
    codes
}

// Steps 4 and 5: the display luminance of a pixel's luminance under the tone of a table. A power of two moves only the exponent of what is
// stored, so the scaled luminance of (E, M) is that of (128, M) with E - 128 added to its exponent.
pub fn display_by(codes: &[u16; 128], tone: Tone, luminance: Stored) -> Stored
    requires { IsScaledTable tone codes.now × IsTone tone × IsLuminance luminance }
    ensures { result ≡ display_under tone luminance }
{
    let code = codes[(luminance.mantissa - 128) as usize];
    let scaled = Stored {
        exponent: (code / 256 + luminance.exponent as u16 - TABLE_EXPONENT as u16) as u8,
        mantissa: (code % 256) as u8,
    };
    display_luminance(tone.white, scaled)
}
