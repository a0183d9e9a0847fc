// The slots after an accepted frame.
ghost use Rattle.std.specs.Prelude.{◌≡◌, ℕ, ◌<◌, if◌then◌else◌, nat_lt, slice_index};
ghost use Rattle.enclosure.specs.Slots.{inserted};
ghost use Rattle.history.specs.Steps.{first_slot, sampled_slot};
ghost use Rattle.table.specs.Table.{counted, counts_of, slots_of};

use backplane::interface::Backplane;
use backplane::places::Input;
use table::rows::Table;

// Whether a drive is in a slot. Other inputs have a line like this where they are asked: each promise names its own input.
fn is_present<B: Backplane>(b: &B, k: usize) -> bool
    requires { k < (B.Backplane.value b.now).configuration.counts.slots }
    ensures { result ≡ (B.Backplane.value b.now).inputs.present k }
{
    b.input(Input::Presence(k)) == Some(1)
}

// Each slot at power-on, with its count. By number, since a backplane is asked by the number of a slot; and there may be fewer counts than slots.
pub fn start_slots<B: Backplane>(table: &mut Table, b: &B, counts: &[u16])
    ensures slots { (k : ℕ) → k < 14 → slots_of table.new k ≡ (if nat_lt k (B.Backplane.value b.now).configuration.counts.slots then first_slot ((B.Backplane.value b.now).inputs.present k) else slots_of table.old k) }
    ensures counts { (k : ℕ) → k < 14 → counts_of table.new k ≡ (if nat_lt k (B.Backplane.value b.now).configuration.counts.slots then slice_index counts.now k else counts_of table.old k) }
{
    for k in 0..usize::from(b.configuration().counts.slots) {
        let count = counts.get(k).copied().unwrap_or(0);
        table.start(k, is_present(b, k), count);
    }
}

// Each slot after a sample, by number for the same reason. The loop is a twin of the one above: a function of both would take a closure, whose clauses are longer than the loop.
pub fn see_slots<B: Backplane>(table: &mut Table, b: &B)
    ensures slots { (k : ℕ) → k < 14 → slots_of table.new k ≡ (if nat_lt k (B.Backplane.value b.now).configuration.counts.slots then sampled_slot (inserted (slots_of table.old k).state) ((B.Backplane.value b.now).inputs.present k) (slots_of table.old k) else slots_of table.old k) }
    ensures counts { (k : ℕ) → k < 14 → counts_of table.new k ≡ (if nat_lt k (B.Backplane.value b.now).configuration.counts.slots then counted (inserted (slots_of table.old k).state) ((B.Backplane.value b.now).inputs.present k) (counts_of table.old k) else counts_of table.old k) }
{
    for k in 0..usize::from(b.configuration().counts.slots) {
        table.see(k, is_present(b, k));
    }
}
