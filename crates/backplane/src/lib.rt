// The interface between the processor and the backplane of a shelf, and its meaning.
#![tactic(auto)]

pub mod configuration;
pub mod fits;
pub mod interface;
pub mod places;
pub mod rows;
