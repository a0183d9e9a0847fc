// The processor of a shelf.
#![tactic(auto)]

pub mod calls;
pub mod commands;
pub mod shelf;
pub mod state;
