// Write orders: what the data of a WRITE BUFFER says.
#![tactic(auto)]

pub mod order;
pub mod reading;
pub mod triples;
