// The fields of a line, read word by word, and what was expected where one does not fit.
#![tactic(auto)]

pub mod expected;
pub mod reading;
pub mod shown;
