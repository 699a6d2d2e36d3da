// Step 1: the luminance of a pixel. Its channels lie up to 112 binary places apart, and the smallest can decide the exponent.
ghost use Rattle.std.specs.Prelude.{◌≡◌, ◌+◌, ◌-◌, ◌*◌, ◌/◌, ◌%◌, ◌^◌, ◌<◌, ◌≤◌, min, ◌==◌};
ghost use Rattle.number.proofs.Laws.{◌over◌, unit, IsChannel, worth_of, stored_of};
ghost use Rattle.luminance.specs.Pixels.{IsPixel, is_black, luminance_of};

use crate::ratio::stored_ratio;
use number::channel::{Channel, Pixel};
use number::ratio::Stored;

// A channel's part of the sum: value * 2^exponent in units of 2^-137. A black channel has 0 * 2^0, and a lit one an exponent from 72 on.
#[derive(Clone, Copy)]
struct Term {
    value: u64,
    exponent: u64,
    ghost bounds: { (value ≤ 34237) × (exponent ≤ 184) },
    ghost lit: { (exponent ≤ 184 * value) × (72 * min 1 exponent ≤ exponent) },
}

#[tactic(auto, using(std::proofs::Common::mul_assoc))]
fn weigh(channel: Channel, weight: u64) -> Term
    requires { IsChannel channel × (1 ≤ weight) × (weight ≤ 67) }
    ensures worth { result.value * 2 ^ result.exponent ≡ weight * (worth_of channel).num }
    ensures black { is_black channel ≡ (result.exponent == 0) }
{
    let Channel::Lit(exponent, mantissa) = channel else {
        return Term {
            value: 0,
            exponent: 0,
        };
    };
    Term {
        value: weight * (2 * (mantissa as u64) + 1),
        exponent: exponent as u64,
    }
}

// t / 2^k with a sticky bit behind it, which is 1 where a rest was cut off.
#[tactic(auto, using(crate::proofs::Sticky::far))]
fn shift_jam(t: u64, k: u64) -> u64
    requires { t < 2 ^ 63 }
    ensures { result ≡ 2 * (t / 2 ^ k) + min 1 (t % 2 ^ k) }
{
    if 64 <= k {
        return t.min(1);
    }
    let q = t >> k;
    if q << k == t { 2 * q } else { 2 * q + 1 }
}

// 2^25: a cut sum has 24 places below the unit of its last term, and the sticky bit behind them.
const TERM_UNIT: u64 = 33554432;

// A term added to a cut sum of a lower exponent.
fn add_term(sum: u64, exponent: u64, term: Term) -> u64
    requires { (sum < 2 ^ 62) × (exponent ≤ term.exponent) }
    ensures cut { result ≡ 2 * (sum / 2 ^ (term.exponent - exponent + 1)) + min 1 (sum % 2 ^ (term.exponent - exponent + 1))
        + term.value * 2 ^ 25 }
    ensures bounds { (term.value * 2 ^ 25 ≤ result) × (result ≤ sum + 1 + term.value * 2 ^ 25) }
{
    shift_jam(sum, term.exponent - exponent + 1) + term.value * TERM_UNIT
}

// A hundredth of the sum of three terms, from the largest exponent to the smallest.
fn store_sorted(a: Term, b: Term, c: Term) -> Stored
    requires { (1 ≤ a.exponent) × (b.exponent ≤ a.exponent) × (c.exponent ≤ b.exponent) }
    ensures { result ≡ stored_of (a.value * 2 ^ a.exponent + b.value * 2 ^ b.exponent + c.value * 2 ^ c.exponent over 100 * unit) }
{
    let low = add_term(c.value * TERM_UNIT, c.exponent, b);
    let sum = add_term(low, b.exponent, a);
    stored_ratio(sum, 200, (a.exponent - 24) as u16)
}

// The same, where the first exponent is at least the second.
fn store_ordered(a: Term, b: Term, c: Term) -> Stored
    requires { (b.exponent ≤ a.exponent) × (1 ≤ a.exponent + b.exponent + c.exponent) }
    ensures { result ≡ stored_of (a.value * 2 ^ a.exponent + b.value * 2 ^ b.exponent + c.value * 2 ^ c.exponent over 100 * unit) }
{
    if c.exponent <= b.exponent {
        return store_sorted(a, b, c);
    }
    if c.exponent <= a.exponent {
        return store_sorted(a, c, b);
    }
    store_sorted(c, a, b)
}

// The same in any order.
fn store_sum(a: Term, b: Term, c: Term) -> Stored
    requires { 1 ≤ a.exponent + b.exponent + c.exponent }
    ensures { result ≡ stored_of (a.value * 2 ^ a.exponent + b.value * 2 ^ b.exponent + c.value * 2 ^ c.exponent over 100 * unit) }
{
    if b.exponent <= a.exponent {
        return store_ordered(a, b, c);
    }
    store_ordered(b, a, c)
}

// The luminance of a pixel; none where all channels are black.
#[tactic(auto, using(crate::proofs::Luminances::unlit))]
pub(crate) fn pixel_luminance(pixel: Pixel) -> Option<Stored>
    requires { IsPixel pixel }
    ensures { result ≡ luminance_of pixel }
{
    let red = weigh(pixel.red, 27);
    let green = weigh(pixel.green, 67);
    let blue = weigh(pixel.blue, 6);
    if red.exponent + green.exponent + blue.exponent == 0 {
        return None;
    }
    Some(store_sum(red, green, blue))
}
