// Stored numbers: what a channel is, how a positive rational is stored, and what the numbers of a source picture become.
#![tactic(auto)]

pub mod channel;
pub mod ratio;
pub mod source;
pub mod whole;
