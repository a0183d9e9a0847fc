// What a shelf answers: refusals, statuses and sense, with their numbers.
#![tactic(auto)]

pub mod refusal;
pub mod sense;
pub mod status;
