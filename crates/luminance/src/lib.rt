// Step 1: the luminance of a pixel.
#![tactic(auto)]

pub mod index;
pub mod near;
pub mod pixel;
pub mod ratio;
