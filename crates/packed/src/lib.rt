// The packed backplane: its inputs are the last frame's bytes, its outputs the bits of the caller's image.
#![tactic(auto)]

pub mod frame;
pub mod held;
pub mod image;
pub mod made;
