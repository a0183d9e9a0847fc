// What power-on, samples and orders do to the table of slots and to the backplane.
#![tactic(auto)]

pub mod frames;
pub mod memory;
