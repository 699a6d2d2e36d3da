// A page tallied and mapped.
#![tactic(auto)]

pub mod map;
pub mod tally;
