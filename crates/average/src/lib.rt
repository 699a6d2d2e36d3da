// Steps 2 and 3: the steps of luminances, their tally and its average.
#![tactic(auto)]

pub mod average;
mod floor;
pub mod join;
pub mod tables;
pub mod tally;
