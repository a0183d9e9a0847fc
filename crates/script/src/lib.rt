// Scripts: what is said to each line, whichever calls a program knows.
#![tactic(auto)]

pub mod lines;
pub mod questions;
pub mod response;
pub mod session;
#[cfg(test)]
mod tests;
