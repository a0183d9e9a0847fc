// The outputs of a backplane, and how they are printed.
#![tactic(auto)]

pub mod listed;
pub mod rows;
pub mod shown;
