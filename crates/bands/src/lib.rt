// A page in bands, strips one behind another in one lent row: its header read, tallied and mapped as one tall page.
#![tactic(auto)]

pub mod check;
pub mod map;
pub mod tally;
mod walk;
