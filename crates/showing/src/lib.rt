// The slots of a shelf, shown on its backplane.
#![tactic(auto)]

ghost use Rattle.std.specs.Prelude.{◌≡◌};
ghost use Rattle.showing.specs.Shown.{of_slot, slot_number, slots_below};
ghost use Rattle.startup.specs.Started.{made_where};
ghost use Rattle.table.specs.Rows.{slot_as};
ghost use Rattle.table.specs.Table.{slots_of};

use backplane::interface::Backplane;
use backplane::places::{Input, Output};
use table::rows::Table;
use table::slot::Slot;

// Sets the lamp of a slot, and whether it is connected, if there is such a slot. All else is as it was.
// Within the loop over the slots the compiler works out once what a backplane is fitted with.
#[inline(always)]
pub fn show_slot<B: Backplane>(b: &mut B, k: usize, slot: Slot)
    ensures { B.Backplane.value b.new ≡ made_where (of_slot (B.Backplane.value b.old).configuration k) (slot_number (λ _. slot_as slot)) (B.Backplane.value b.old) }
{
    let _ = b.set(Output::Lamp(k), slot.lamp());
    let _ = b.set(Output::Connection(k), slot.is_connected() as u8);
}

// The same for each slot. It is worked into what calls it too.
#[inline(always)]
pub fn show_slots<B: Backplane>(b: &mut B, table: &Table)
    ensures { B.Backplane.value b.new ≡ made_where (slots_below (B.Backplane.value b.old).configuration.counts.slots) (slot_number (slots_of table.now)) (B.Backplane.value b.old) }
{
    // By number, since the table has no iterator, and a backplane is set by the number of a slot.
    for k in 0..b.configuration().counts.slots {
        show_slot(b, k as usize, table.slot(k as usize));
    }
}
