// The vocabulary of a disk shelf: how many parts it may have, what a slot holds, and the codes of fans and supplies.
#![tactic(auto)]

pub mod codes;
pub mod conditions;
pub mod counts;
pub mod record;
pub mod slots;
#[cfg(test)]
mod tests;
pub mod unknown;
