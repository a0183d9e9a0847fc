// The plain backplane: its inputs and outputs in tables of its own.
#![tactic(auto)]

pub mod frame;
pub mod held;
pub mod made;
pub mod tables;
