// The picture program's answer: from the bytes of its input to the bytes that it prints.
#![tactic(auto)]

pub mod answer;
mod put;
pub mod text;
pub mod words;
