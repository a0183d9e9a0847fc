// The table of slots.
ghost use Rattle.table.specs.Entries.{AllRecords, AllRecords-prop};

use crate::slot::Slot;
use enclosure::record::SlotRecord;
use orders::order::Operation;

// A slot and its insertion count.
#[derive(Clone, Copy)]
struct Entry {
    slot: Slot,
    count: u16,
}

impl Entry {
    // A slot without a drive.
    const VACANT: Entry = Entry {
        slot: Slot::EMPTY,
        count: 0,
    };
}

// An entry for each of up to 14 slots, in memory of a fixed size: firmware has no heap. Every row is a record.
// What a call writes is said for each slot `j`, by an `if` at `k` that is spelled out: as a definition it would hide which slot changes and that all others stay.
#[derive(Clone, Copy)]
pub struct Table {
    entries: [Entry; 14],
    ghost records: { AllRecords entries } by { AllRecords-prop entries },
}

impl Table {
    ghost use Rattle.std.specs.Prelude.{◌≡◌, ℕ, ◌+◌, ◌<◌, min, false, not, ◌&&◌, if◌then◌else◌, nat_eq};
    ghost use Rattle.enclosure.specs.Records.{row_of};
    ghost use Rattle.enclosure.specs.Slots.{inserted};
    ghost use Rattle.history.specs.Kept.{Fine};
    ghost use Rattle.history.specs.Orders.{operated};
    ghost use Rattle.history.specs.Steps.{first_slot, sampled_slot};
    ghost use Rattle.orders.specs.Decoded.{operation_as};
    ghost use Rattle.table.specs.Entries.{entry_at};
    ghost use Rattle.table.specs.Rows.{slot_as};
    ghost use Rattle.table.specs.Table.{counted, counts_of, slots_of};

    // A table of empty slots.
    #[tactic(auto, unfolding(crate::specs::Entries::AllRecords, crate::specs::Table::slots_of, crate::specs::Table::counts_of))]
    pub fn blank() -> Table
        ensures slots { (k : ℕ) → k < 14 → slots_of result k ≡ first_slot false }
        ensures counts { (k : ℕ) → k < 14 → counts_of result k ≡ 0 }
    {
        Table {
            entries: [Entry::VACANT; 14],
        }
    }

    // The entry of slot `k`; past the table one without a drive.
    fn entry(&self, k: usize) -> Entry
        ensures { result ≡ entry_at self.now.entries k }
    {
        self.entries.get(k).copied().unwrap_or(Entry::VACANT)
    }

    // Slot `k`; past the table an empty one.
    #[tactic(auto, unfolding(crate::specs::Table::slots_of))]
    pub fn slot(&self, k: usize) -> Slot
        ensures { slot_as result ≡ slots_of self.now k }
    {
        self.entry(k).slot
    }

    // The record of slot `k`; past the table the one without flags.
    pub fn record(&self, k: usize) -> SlotRecord
        ensures { row_of result ≡ (slots_of self.now k).row }
    {
        // This never fails, since the ghost field says that each row is a record.
        SlotRecord::try_from(self.slot(k).row).unwrap()
    }

    // The insertion count of slot `k`; past the table 0.
    #[tactic(auto, unfolding(crate::specs::Table::counts_of))]
    pub fn count(&self, k: usize) -> u16
        ensures { result ≡ counts_of self.now k }
    {
        self.entry(k).count
    }

    // Writes one slot, whose row is a record; its neighbours stay.
    pub(crate) fn put(&mut self, k: usize, slot: Slot)
        requires { Fine slot.row }
        ensures slots { (j : ℕ) → j < 14 → slots_of self.new j ≡ (if nat_eq j k then slot_as slot else slots_of self.old j) }
        ensures counts { counts_of self.new ≡ counts_of self.old }
    {
        // By index, since a proof knows only the length of what is written through `get_mut`.
        if k < 14 {
            self.entries[k].slot = slot;
        }
    }

    // Writes one count.
    fn put_count(&mut self, k: usize, count: u16)
        ensures counts { (j : ℕ) → j < 14 → counts_of self.new j ≡ (if nat_eq j k then count else counts_of self.old j) }
        ensures slots { slots_of self.new ≡ slots_of self.old }
    {
        // By index, as `put`.
        if k < 14 {
            self.entries[k].count = count;
        }
    }

    // Slot `k` at power-on, with a drive or without, and its count.
    pub fn start(&mut self, k: usize, present: bool, count: u16)
        ensures slots { (j : ℕ) → j < 14 → slots_of self.new j ≡ (if nat_eq j k then first_slot present else slots_of self.old j) }
        ensures counts { (j : ℕ) → j < 14 → counts_of self.new j ≡ (if nat_eq j k then count else counts_of self.old j) }
    {
        self.put(k, Slot::first(present));
        self.put_count(k, count);
    }

    // Slot `k` after an accepted frame that shows a drive in it or none.
    pub fn see(&mut self, k: usize, present: bool)
        ensures slots { (j : ℕ) → j < 14 → slots_of self.new j ≡ (if nat_eq j k then sampled_slot (inserted (slots_of self.old j).state) present (slots_of self.old j) else slots_of self.old j) }
        ensures counts { (j : ℕ) → j < 14 → counts_of self.new j ≡ (if nat_eq j k then counted (inserted (slots_of self.old j).state) present (counts_of self.old j) else counts_of self.old j) }
    {
        let slot = self.slot(k);
        let count = self.count(k);
        self.put(k, slot.sampled(present));
        if present && !slot.is_inserted() {
            self.put_count(k, count.saturating_add(1));
        }
    }

    // Slot `k` after an operation. Its body is that of `replace` with another step: a function of both, with a closure, would add four clauses and save none of theirs.
    pub fn operate(&mut self, k: usize, operation: Operation)
        ensures slots { (j : ℕ) → j < 14 → slots_of self.new j ≡ (if nat_eq j k then operated (operation_as operation) (slots_of self.old j) else slots_of self.old j) }
        ensures counts { counts_of self.new ≡ counts_of self.old }
    {
        self.put(k, self.slot(k).operated(operation));
    }
}
