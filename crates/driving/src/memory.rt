// What orders move: the memory of a shelf, and the outputs.
ghost use Rattle.std.specs.Prelude.{◌≡◌, ℕ, ◌<◌};
ghost use Rattle.driving.specs.Obeyed.{flags_after, slots_after, value_after};
ghost use Rattle.orders.specs.Decoded.{order_as};
ghost use Rattle.table.specs.Table.{counts_of, slots_of};

use backplane::interface::Backplane;
use backplane::places::Output;
use orders::order::Order;
use showing::{show_slot, show_slots};
use table::memory::Memory;

// Obeys an order.
pub fn obey<B: Backplane>(memory: &mut Memory, b: &mut B, order: Order<'_>)
    ensures slots { (k : ℕ) → k < 14 → slots_of memory.new.table k ≡ slots_after (order_as order.entry) (slots_of memory.old.table) k }
    ensures counts { counts_of memory.new.table ≡ counts_of memory.old.table }
    ensures flags { memory.new.flags ≡ flags_after (order_as order.entry) memory.old.flags }
    ensures does { B.Backplane.value b.new ≡ value_after (order_as order.entry) (slots_of memory.new.table) (B.Backplane.value b.old) }
{
    match order {
        Order::Triples(triples) => {
            memory.table.store(triples);
            show_slots(b, &memory.table);
        }
        Order::Operate { slot, operation } => {
            memory.table.operate(slot, operation);
            show_slot(b, slot, memory.table.slot(slot));
        }
        Order::Speed { fan, speed } => {
            let _ = b.set(Output::Speed(fan), speed);
        }
        Order::Switch { supply, on } => {
            let _ = b.set(Output::Supply(supply), u8::from(on));
        }
        Order::Global(flags) => {
            let [first, second, _] = flags;
            memory.flags = [first, second % 16, 0];
            let _ = b.set(Output::Alarm, first % 2);
            let _ = b.set(Output::Lock, (second >> 2) % 2);
        }
    }
}
