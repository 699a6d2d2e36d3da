// Steps 4 to 6: display luminance and the level of a channel.
#![tactic(auto)]

pub mod factor;
pub mod level;
pub mod tone;
