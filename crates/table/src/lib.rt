// What a shelf keeps of its slots, and the global flags beside it.
#![tactic(auto)]

pub mod memory;
pub mod rows;
pub mod slot;
pub mod triples;
