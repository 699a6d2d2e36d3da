// The answers of the library as C takes them, structs of 64-bit numbers, and a page's numbers as C passes them. Each
// tells of a refusal by itself: C's structs name number and place themselves, so that they have no common front.
#![tactic(auto)]

pub mod headers;
pub mod rows;
pub mod steps;
pub mod tallies;
