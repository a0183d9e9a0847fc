// The record of a slot: what the hosts last wrote of its drive.
ghost use Rattle.enclosure.specs.Flags.{Sound};

pub mod rows;

// `flags` is byte 0 and `more` byte 1 of the three; byte 2 has no flag and is always 0.
// A sound record has no reserved bit, and never both Device Rebuilding and Rebuild Stopped.
#[derive(Clone, Copy)]
pub struct SlotRecord {
    flags: u8,
    more: u8,
    ghost sound: { Sound flags more },
}
