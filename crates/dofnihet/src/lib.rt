// The C interface: each call of the library as an exported function. A slice is a pointer and a length, an answer a struct of 64-bit
// numbers. include/dofnihet.h declares the same for C.
#![tactic(auto)]

pub mod foldouts;
pub mod pages;
pub mod pictures;
pub mod readers;
pub mod rows;
pub mod sources;
pub mod strips;
