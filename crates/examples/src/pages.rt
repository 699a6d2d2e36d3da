// Examples of whole pages, converted from halves.
use crate::print::{Levels, Output, Pair, Refused, Signed};
use average::average::Average;
use convert::half::convert_half;
use luminance::index::code_luminance;
use number::ratio::Stored;
use page::map::map;
use page::tally::tally;
use std::fmt::{self, Write};
use strip::read::body;
use word::header::{Header, low_half};

// A page of one row.
pub fn header(width: u64, key: u64) -> Header {
    Header {
        width,
        height: 1,
        key,
        white: None,
    }
}

// The strip of a page of halves; one of zeros, which every call refuses, where the page is refused.
fn strip_of<const N: usize>(halves: &[u16], page: Header) -> [u32; N] {
    let mut strip = [0; N];
    let _ = convert_half(halves, page, &mut strip);
    strip
}

// The average of a strip, absent where the strip is refused.
fn average(strip: &[u32]) -> Option<Average> {
    tally(strip).ok()?.average
}

// The A of a strip.
fn steps(output: &mut Output, strip: &[u32]) -> fmt::Result {
    match average(strip) {
        Some(average) => write!(output, "A = {}", Signed(average.steps)),
        None => write!(output, "absent"),
    }
}

// The stored average of a strip.
fn stored(output: &mut Output, strip: &[u32]) -> fmt::Result {
    match average(strip) {
        Some(average) => write!(output, ", average {}", Pair(average.stored)),
        None => write!(output, ", absent"),
    }
}

// The levels of a strip of one or two pixels.
fn levels(output: &mut Output, strip: &[u32]) -> fmt::Result {
    let mut bytes = [0u8; 6];
    match map(strip, &mut bytes) {
        Ok(()) => {
            let count = body(strip).len().min(6);
            write!(output, ", levels{}", Levels(&bytes[..count]))
        },
        Err(fault) => write!(output, "{}", Refused(fault)),
    }
}

// The luminance of the first pixel.
fn luminance(strip: &[u32]) -> Option<Stored> {
    match body(strip) {
        [red, green, blue, ..] => code_luminance(low_half(*red), low_half(*green), low_half(*blue)),
        _ => None,
    }
}

pub fn one_grey(output: &mut Output) -> fmt::Result {
    let strip: [u32; 6] = strip_of(&[0x3C00; 3], header(1, 180));
    write!(output, "one grey 3C00, K 180: ")?;
    steps(output, &strip)?;
    stored(output, &strip)?;
    levels(output, &strip)?;
    write!(output, "\n")
}

pub fn three_greys(output: &mut Output) -> fmt::Result {
    let halves = [
        0x3C00, 0x3C00, 0x3C00, 0x3C00, 0x3C00, 0x3C00, 0x3800, 0x3800, 0x3800,
    ];
    let strip: [u32; 12] = strip_of(&halves, header(3, 180));
    write!(output, "greys 3C00, 3C00, 3800, K 180: ")?;
    steps(output, &strip)?;
    write!(output, "\n")
}

pub fn grey_and_black(output: &mut Output) -> fmt::Result {
    let strip: [u32; 9] = strip_of(&[0x7BFF, 0x7BFF, 0x7BFF, 0, 0, 0], header(2, 180));
    write!(output, "grey 7BFF and a black pixel, K 180: ")?;
    steps(output, &strip)?;
    levels(output, &strip)?;
    write!(output, "\n")
}

pub fn red_alone(output: &mut Output) -> fmt::Result {
    let strip: [u32; 6] = strip_of(&[0x3C00, 0, 0], header(1, 180));
    match luminance(&strip) {
        Some(stored) => write!(output, "red 3C00 alone: luminance {}", Pair(stored))?,
        None => write!(output, "red 3C00 alone: unlit")?,
    }
    write!(output, ", K 180")?;
    levels(output, &strip)?;
    let brighter: [u32; 6] = strip_of(&[0x3C00, 0, 0], header(1, 1000));
    write!(output, ", K 1000")?;
    levels(output, &brighter)?;
    write!(output, "\n")
}
