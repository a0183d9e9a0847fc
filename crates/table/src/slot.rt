// One slot: its record, its physical state, and whether it is to be identified.
ghost use Rattle.std.specs.Prelude.{◌≡◌};
ghost use Rattle.enclosure.specs.Slots.{inserted};
ghost use Rattle.history.specs.Orders.{operated};
ghost use Rattle.history.specs.Outputs.{connected, slot_lamp};
ghost use Rattle.history.specs.Steps.{first_slot, sampled_slot, unconfigured};
ghost use Rattle.orders.specs.Decoded.{operation_as};
ghost use Rattle.table.specs.Rows.{replaced, slot_as};

use enclosure::record::SlotRecord;
use enclosure::record::rows::Row;
use enclosure::slots::{PhysicalState, SlotEvent};
use lamps::Lamp;
use orders::order::Operation;
use orders::triples::{is_flagged, to_store};

#[derive(Clone, Copy)]
pub struct Slot {
    pub row: Row,
    pub state: PhysicalState,
    pub identify: bool,
}

// The record without flags.
const NO_FLAGS: Row = Row {
    flags: 0x00,
    more: 0x00,
    last: 0x00,
};

// The record with Unconfigured set.
fn unconfigured(row: Row) -> Row
    ensures { result ≡ unconfigured row }
{
    Row {
        flags: row.flags | 0x80,
        ..row
    }
}

impl Slot {
    // A slot without a drive.
    pub(crate) const EMPTY: Slot = Slot {
        row: NO_FLAGS,
        state: PhysicalState::EmptyReady,
        identify: false,
    };

    // A slot at power-on, with a drive or without.
    pub fn first(present: bool) -> Slot
        ensures { slot_as result ≡ first_slot present }
    {
        if present {
            Slot {
                row: Row {
                    flags: 0x80,
                    ..NO_FLAGS
                },
                state: PhysicalState::InsertedPrepared,
                identify: false,
            }
        } else {
            Slot::EMPTY
        }
    }

    // Whether a drive is in it. It and `is_connected` ask for other states, one pattern each.
    pub fn is_inserted(self) -> bool
        ensures { result ≡ inserted self.state }
    {
        matches!(
            self.state,
            PhysicalState::InsertedReady | PhysicalState::InsertedPrepared
        )
    }

    // Whether it is connected to the bus.
    pub fn is_connected(self) -> bool
        ensures { result ≡ connected (slot_as self) }
    {
        matches!(
            self.state,
            PhysicalState::EmptyPrepared | PhysicalState::InsertedPrepared
        )
    }

    // The number of its lamp. It is no `Lamp`, since all outputs of a backplane are set by numbers.
    pub fn lamp(self) -> u8
        ensures { result ≡ slot_lamp (slot_as self) }
    {
        u8::from(Lamp::of(self.row, self.identify))
    }

    // The slot after an accepted frame that shows a drive in it or none.
    pub fn sampled(self, now: bool) -> Slot
        ensures { slot_as result ≡ sampled_slot (inserted self.state) «now» (slot_as self) }
    {
        match (self.is_inserted(), now) {
            (true, false) => Slot {
                state: self.state.after(SlotEvent::Removal),
                ..self
            },
            (false, true) => Slot {
                row: unconfigured(self.row),
                state: self.state.after(SlotEvent::Insertion),
                ..self
            },
            _ => self,
        }
    }

    // The slot after an operation.
    pub fn operated(self, operation: Operation) -> Slot
        ensures { slot_as result ≡ operated (operation_as operation) (slot_as self) }
    {
        match operation {
            Operation::Idle => self,
            Operation::Prepare => Slot {
                state: self.state.after(SlotEvent::Prepare),
                identify: false,
                ..self
            },
            Operation::Release => Slot {
                state: self.state.after(SlotEvent::Release),
                identify: false,
                ..self
            },
            Operation::Identify => Slot {
                identify: true,
                ..self
            },
        }
    }

    // The slot after a triple for it: one with a flag becomes the record. One that makes no record is passed over.
    pub fn replaced(self, triple: Row) -> Slot
        ensures { slot_as result ≡ replaced triple (slot_as self) }
    {
        if !is_flagged(triple) {
            return self;
        }
        match SlotRecord::try_from(to_store(triple)) {
            Ok(record) => Slot {
                row: Row::from(record),
                ..self
            },
            Err(_) => self,
        }
    }
}
