// The strip: its words checked, its header and channels read back.
#![tactic(auto)]

pub mod check;
pub mod read;
