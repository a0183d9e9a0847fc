// What a command is answered: its status, and the bytes of its reply.
#![tactic(auto)]

pub mod bytes;
pub mod reply;
