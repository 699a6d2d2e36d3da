// What the examples print.
use number::ratio::Stored;
use refusal::{Fault, Outcome};
use std::fmt;

// Standard output, written piece by piece. A write that fails is passed over, and the next piece is written all the same.
#[derive(Drop)]
pub struct Output;

impl fmt::Write for Output {
    fn write_str(&mut self, text: &str) -> fmt::Result {
        io::write_all(1, text.as_bytes());
        Ok(())
    }
}

// A signed number, its sign a piece by itself.
#[derive(Clone, Copy)]
pub struct Signed(pub i64);

impl fmt::Display for Signed {
    fn fmt<W: fmt::Write>(&self, f: &mut fmt::Formatter<W>) -> fmt::Result {
        if self.0 < 0 {
            write!(f, "-")?;
        }
        write!(f, "{}", self.0.unsigned_abs())
    }
}

// A stored number.
#[derive(Clone, Copy)]
pub struct Pair(pub Stored);

impl fmt::Display for Pair {
    fn fmt<W: fmt::Write>(&self, f: &mut fmt::Formatter<W>) -> fmt::Result {
        write!(f, "({},{})", self.0.exponent, self.0.mantissa)
    }
}

// A channel in its 16-bit form.
#[derive(Clone, Copy)]
pub struct Code(pub u16);

impl fmt::Display for Code {
    fn fmt<W: fmt::Write>(&self, f: &mut fmt::Formatter<W>) -> fmt::Result {
        match self.0.to_be_bytes() {
            [0, 0] => write!(f, "black"),
            [exponent, mantissa] => write!(f, "({exponent},{mantissa})"),
        }
    }
}

// Level bytes, a space before each.
#[derive(Clone, Copy)]
pub struct Levels<'a>(pub &'a [u8]);

impl fmt::Display for Levels<'_> {
    fn fmt<W: fmt::Write>(&self, f: &mut fmt::Formatter<W>) -> fmt::Result {
        for level in self.0 {
            write!(f, " {level}")?;
        }
        Ok(())
    }
}

// A refusal.
#[derive(Clone, Copy)]
pub struct Refused(pub Fault);

impl fmt::Display for Refused {
    fn fmt<W: fmt::Write>(&self, f: &mut fmt::Formatter<W>) -> fmt::Result {
        let told = Outcome::from(self.0);
        write!(f, "refused {} {}", told.number, told.place)
    }
}
