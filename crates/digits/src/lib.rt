// Bytes and numbers as the words of a line.
#![tactic(auto)]

pub mod hex;
pub mod number;
