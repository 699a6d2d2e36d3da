// The words of a strip, one at a time, and the kinds of a block of them.
#![tactic(auto)]

pub mod body;
pub mod header;
pub mod kinds;
