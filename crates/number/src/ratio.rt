// A ratio of two whole numbers, stored.
ghost use Rattle.std.specs.Prelude.{◌≡◌, ◌+◌, ◌-◌, ◌*◌, ◌^◌, ◌<◌, ◌≤◌};
ghost use Rattle.number.specs.Fractions.{◌over◌};
ghost use Rattle.number.specs.Storing.{unit, Normalised, Scales, ratio_of, ratio_told};

// A stored number: exponent E and mantissa M, worth (M + 1/2) * 2^(E - 136).
#[derive(Clone, Copy, PartialEq, Eq, PartialOrd, Ord)]
pub struct Stored {
    pub exponent: u8,
    pub mantissa: u8,
}

// The powers of two that bring a ratio above 1/2 and at most to 1, times 2^up and divided by 2^down, with its mantissa.
#[derive(Clone, Copy)]
struct Scaled {
    up: u8,
    down: u8,
    mantissa: u8,
}

// A number shifted left until its top bit is bit 63.
#[derive(Clone, Copy)]
struct Aligned {
    value: u64,
    shift: u8,
}

#[tactic(auto, using(crate::proofs::Shifts::aligned))]
fn align(v: u64) -> Aligned
    requires { 0 < v }
    ensures { (result.value ≡ v * 2 ^ result.shift) × (2 ^ 63 ≤ result.value) × (result.shift ≤ 63) }
{
    let shift = v.leading_zeros();
    Aligned {
        value: v << shift,
        shift: shift as u8,
    }
}

// Binary digits of a quotient, and the rest that the next digit is taken from.
#[derive(Clone, Copy)]
struct Quotient {
    digits: u64,
    rest: u64,
}

impl Quotient {
    // One digit more. No sum goes beyond the divisor.
    fn next(self, den: u64) -> Quotient
        requires { (self.rest < den) × (self.digits < 128) }
        ensures { (result.digits * den + result.rest ≡ 2 * (self.digits * den + self.rest)) × (result.rest < den) × (result.digits ≤ 2 * self.digits + 1) }
    {
        let gap = den - self.rest;
        if gap <= self.rest {
            Quotient {
                digits: 2 * self.digits + 1,
                rest: self.rest - gap,
            }
        } else {
            Quotient {
                digits: 2 * self.digits,
                rest: 2 * self.rest,
            }
        }
    }
}

// The mantissa of (den + rest) / (2 * den) digit by digit: a leading 1, and seven digits of rest / den.
fn mantissa_by_digits(rest: u64, den: u64) -> u8
    requires { (0 < rest) × (rest < den) }
    ensures { Normalised (den + rest) (2 * den) result }
{
    let mut q = Quotient { digits: 1, rest };
    for _ in 0..7u32 {
        q = q.next(den);
    }
    q.digits as u8
}

// The mantissa of (128 * part + rest) / (256 * part), by one division: the leading 1 is worth 128, and the seven digits are rest / part.
fn mantissa_by_division(rest: u64, part: u64) -> u8
    requires { (0 < rest) × (rest < 128 * part) }
    ensures { Normalised (128 * part + rest) (256 * part) result }
{
    (128 + rest / part) as u8
}

// The mantissa of (den + rest) / (2 * den). A den below 2^57 that is shifted to bit 63 is a multiple of 128.
fn mantissa(rest: u64, den: u64) -> u8
    requires { (0 < rest) × (rest < den) }
    ensures { Normalised (den + rest) (2 * den) result }
{
    if den % 128 == 0 {
        mantissa_by_division(rest, den / 128)
    } else {
        mantissa_by_digits(rest, den)
    }
}

// What the denominator leaves of an aligned numerator, which is doubled where it is smaller.
fn rest_of(top: u64, bottom: u64) -> u64
    requires { bottom ≤ 2 * top }
    ensures { (top < bottom → result ≡ top - (bottom - top)) × (bottom ≤ top → result ≡ top - bottom) }
{
    if top < bottom {
        top - (bottom - top)
    } else {
        top - bottom
    }
}

// num / den, scaled to above 1/2 and at most 1.
fn scale(num: u64, den: u64) -> Scaled
    requires { (0 < num) × (0 < den) }
    ensures { Scales (num over den) result.up result.down result.mantissa }
{
    let n = align(num);
    let d = align(den);
    let top = n.value;
    let bottom = d.value;
    if top == bottom {
        return Scaled {
            up: n.shift,
            down: d.shift,
            mantissa: 255,
        };
    }
    Scaled {
        up: n.shift,
        down: d.shift + u8::from(bottom <= top),
        mantissa: mantissa(rest_of(top, bottom), bottom),
    }
}

// num / den * 2^exp in units of 2^-137, stored; none where the exponent does not fit.
pub fn store_ratio(num: u64, den: u64, exp: u16) -> Option<Stored>
    ensures answer { result ≡ ratio_of (num * 2 ^ exp over den * unit) }
    ensures told { ratio_told result ≡ ratio_told (ratio_of (num * 2 ^ exp over den * unit)) }
{
    if num == 0 || den == 0 {
        return None;
    }
    let s = scale(num, den);
    let high = exp as u64 + s.down as u64;
    let low = s.up as u64 + 9;
    let exponent = u8::try_from(high.checked_sub(low)?).ok()?;
    Some(Stored {
        exponent,
        mantissa: s.mantissa,
    })
}
