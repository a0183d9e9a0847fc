// Which call the words of a line are, or what was expected in it, for each program. The first word is handed over
// apart from the rest, since it was taken to tell a line with a call from one without words.
#![tactic(auto)]

pub mod question;
pub mod shelves;
