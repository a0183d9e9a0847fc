// The host-side reader: part number n of a run, from a shelf's configuration page and another page.
#![tactic(auto)]

pub mod fault;
pub mod layers;
pub mod names;
#[cfg(test)]
mod tests;
