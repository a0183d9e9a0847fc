// What the slot page and the insertion page show of the table, all 14 slots of it: firmware has no heap for a list of just those that are fitted.
ghost use Rattle.std.specs.Prelude.{◌≡◌, ℕ, ◌≤◌, take};
ghost use Rattle.history.specs.Replies.{listed, slot_bytes};
ghost use Rattle.parts.specs.Laid.{slot_laid};
ghost use Rattle.std.specs.List.{flat_map};
ghost use Rattle.table.specs.Table.{counts_of, slots_of};

use parts::kinds::{InsertionCount, Slot as SlotShown};
use std::array;
use table::rows::Table;

// The insertion counts.
pub fn insertion_counts(table: &Table) -> [InsertionCount; 14]
    ensures { result ≡ listed (λ k. record { 0 = counts_of table.now k }) 14 }
{
    array::from_fn(|k| InsertionCount(table.count(k)))
}

// Slot `k` as the slot page shows it.
fn shown(table: &Table, k: usize) -> SlotShown
    ensures { slot_laid result ≡ slot_bytes (slots_of table.now k) }
{
    SlotShown {
        record: table.record(k),
        state: table.slot(k).state,
    }
}

// The slots. Any number of them, from the first on, is laid as the rows and the physical states that the table has.
pub fn slots_shown(table: &Table) -> [SlotShown; 14]
    ensures { (n : ℕ) → n ≤ 14 → flat_map slot_laid (take n result) ≡ flat_map slot_bytes (listed (slots_of table.now) n) }
{
    array::from_fn(|k| shown(table, k))
}
