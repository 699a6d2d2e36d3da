// Source pictures into strips: RGBE, half and single floats, and stored channels. Each has a public call with a contract of its own, one line
// over the one conversion.
#![tactic(auto)]

mod each;
mod format;
pub mod half;
mod half_blocks;
pub mod rgbe;
pub mod single;
pub mod stored;
