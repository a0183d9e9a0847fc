// Scripts that speak of shelves: what is said to each call, and the shelf that is held after it.
#![tactic(auto)]

pub mod shelves;
#[cfg(test)]
mod tests;
