// The parts of a shelf's pages, gathered from its backplane and its table.
#![tactic(auto)]

pub mod inputs;
pub mod kept;
