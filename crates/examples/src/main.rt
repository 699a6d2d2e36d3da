// The worked examples of document 01 that are not proved. Each line is printed from what calls answer; `stdout` has what the paper answers.
#![tactic(auto)]

mod pages;
mod print;
mod sources;

use crate::pages::{grey_and_black, header, one_grey, red_alone, three_greys};
use crate::print::Output;
use crate::sources::grey;
use convert::half::convert_half;
use convert::rgbe::convert_rgbe;
use convert::single::convert_single;
use std::fmt;

fn main() {
    let _ = print_all(&mut Output);
}

fn print_all(output: &mut Output) -> fmt::Result {
    let page = header(1, 180);
    grey(
        output,
        "half 0003: ",
        |strip| convert_half(&[0x0003; 3], page, strip),
    )?;
    grey(
        output,
        "half 8000: ",
        |strip| convert_half(&[0x8000; 3], page, strip),
    )?;
    grey(
        output,
        "RGBE byte 1, e 136: ",
        |strip| convert_rgbe(&[1, 1, 1, 136], page, strip),
    )?;
    grey(
        output,
        "RGBE byte 128, e 185: ",
        |strip| convert_rgbe(&[128, 128, 128, 185], page, strip),
    )?;
    grey(
        output,
        "single 23000001: ",
        |strip| convert_single(&[0x23000001; 3], page, strip),
    )?;
    grey(
        output,
        "single 5B800000: ",
        |strip| convert_single(&[0x5B800000; 3], page, strip),
    )?;
    one_grey(output)?;
    three_greys(output)?;
    grey_and_black(output)?;
    red_alone(output)
}
