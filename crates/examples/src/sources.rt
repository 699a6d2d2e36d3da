// Examples of one number of a source: a picture of one grey pixel is converted, and its red channel printed behind a label.
use crate::print::{Code, Output, Refused};
use refusal::Fault;
use std::fmt::{self, Write};
use strip::read::unpack;

// The red channel of the strip that a conversion leaves, in its 16-bit form.
fn red<F: FnOnce(&mut [u32]) -> Result<(), Fault>>(convert: F) -> Result<u16, Fault>
    requires { F.IsAlwaysCallable convert }
{
    let mut strip = [0u32; 6];
    convert(&mut strip)?;
    let mut codes = [0u16; 3];
    unpack(&strip, &mut codes)?;
    Ok(codes[0])
}

pub fn grey<F: FnOnce(&mut [u32]) -> Result<(), Fault>>(
    output: &mut Output,
    label: &str,
    convert: F,
) -> fmt::Result
    requires { F.IsAlwaysCallable convert }
{
    match red(convert) {
        Ok(code) => write!(output, "{label}{}\n", Code(code)),
        Err(fault) => write!(output, "{label}{}\n", Refused(fault)),
    }
}
