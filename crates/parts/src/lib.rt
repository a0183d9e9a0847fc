// Parts of a page: kinds with a width, laid as bytes and read back.
#![tactic(auto)]

pub mod code;
pub mod kinds;
pub mod part;
