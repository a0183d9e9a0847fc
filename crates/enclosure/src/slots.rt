// The physical state of a slot, and how events move it.
ghost use Rattle.std.specs.Prelude.{◌≡◌};
ghost use Rattle.std.specs.Option.{ok_or};
ghost use Rattle.enclosure.specs.Slots.{moved, state_byte, state_read};

use crate::unknown::UnknownByte;

// Whether a drive is in the slot, and whether the slot is prepared for operation.
#[derive(Clone, Copy)]
pub enum PhysicalState {
    EmptyReady,
    EmptyPrepared,
    InsertedReady,
    InsertedPrepared,
}

// What moves a slot: two operations that hosts order, and a drive that is put in or taken out.
#[derive(Clone, Copy)]
pub enum SlotEvent {
    Prepare,
    Release,
    Insertion,
    Removal,
}

impl PhysicalState {
    // The state after an event. A removal also releases the slot; an event that changes nothing leaves the state.
    pub fn after(self, event: SlotEvent) -> PhysicalState
        ensures { result ≡ moved self event }
    {
        match (self, event) {
            (PhysicalState::EmptyReady, SlotEvent::Prepare) => PhysicalState::EmptyPrepared,
            (PhysicalState::InsertedReady, SlotEvent::Prepare) => PhysicalState::InsertedPrepared,
            (PhysicalState::EmptyPrepared, SlotEvent::Release) => PhysicalState::EmptyReady,
            (PhysicalState::InsertedPrepared, SlotEvent::Release) => PhysicalState::InsertedReady,
            (PhysicalState::EmptyReady, SlotEvent::Insertion) => PhysicalState::InsertedReady,
            (PhysicalState::EmptyPrepared, SlotEvent::Insertion) => PhysicalState::InsertedPrepared,
            (PhysicalState::InsertedReady, SlotEvent::Removal) => PhysicalState::EmptyReady,
            (PhysicalState::InsertedPrepared, SlotEvent::Removal) => PhysicalState::EmptyReady,
            (state, _) => state,
        }
    }
}

// The state as byte 3 of a slot.
impl From<PhysicalState> for u8 {
    ghost from_gives = { λ state byte. byte ≡ state_byte state };

    fn from(state: PhysicalState) -> u8 {
        match state {
            PhysicalState::EmptyReady => 0x02,
            PhysicalState::InsertedReady => 0x03,
            PhysicalState::EmptyPrepared => 0x04,
            PhysicalState::InsertedPrepared => 0x05,
        }
    }
}

// The state that a byte is, if it is one.
impl TryFrom<u8> for PhysicalState {
    type Error = UnknownByte;

    ghost try_from_gives = { λ byte state. state ≡ ok_or (state_read byte) (record { 0 = byte }) };

    fn try_from(byte: u8) -> Result<PhysicalState, UnknownByte> {
        match byte {
            0x02 => Ok(PhysicalState::EmptyReady),
            0x03 => Ok(PhysicalState::InsertedReady),
            0x04 => Ok(PhysicalState::EmptyPrepared),
            0x05 => Ok(PhysicalState::InsertedPrepared),
            _ => Err(UnknownByte(byte)),
        }
    }
}
