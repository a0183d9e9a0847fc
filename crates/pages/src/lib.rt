// The pages of a shelf, laid from their parts into a buffer of the caller.
// What lays a page answers its length and lends no slice: it promises what all of the caller's buffer then holds, and a slice that is lent out would leave the rest unsaid.
// The clauses `len` and `page` stand by each page, two equations named alike: one definition for both would only hide them, and who calls reads them one at a time.
#![tactic(auto)]

pub mod configuration;
pub mod flags;
pub mod heat;
mod runs;
pub mod slots;
pub mod status;
#[cfg(test)]
mod tests;
pub mod worked;
