// The triples of an order 10h, stored.
ghost use Rattle.std.specs.Prelude.{◌≡◌, ℕ, ◌+◌, ◌*◌, ◌<◌, ◌&&◌, length, if◌then◌else◌, nat_eq, nat_lt};
ghost use Rattle.history.specs.Orders.{triple_in};
ghost use Rattle.table.specs.Rows.{replaced};
ghost use Rattle.table.specs.Table.{counts_of, slots_of};

use crate::rows::Table;
use enclosure::record::rows::Row;
use orders::triples::row;

impl Table {
    // Slot `k` after a triple for it.
    pub fn replace(&mut self, k: usize, triple: Row)
        ensures slots { (j : ℕ) → j < 14 → slots_of self.new j ≡ (if nat_eq j k then replaced triple (slots_of self.old j) else slots_of self.old j) }
        ensures counts { counts_of self.new ≡ counts_of self.old }
    {
        self.put(k, self.slot(k).replaced(triple));
    }

    // Each slot that there is a whole triple for, after that triple.
    pub fn store(&mut self, triples: &[u8])
        ensures slots { (j : ℕ) → j < 14 → slots_of self.new j ≡ (if nat_lt (3 * j + 2) (length triples.now) then replaced (triple_in triples.now j) (slots_of self.old j) else slots_of self.old j) }
        ensures counts { counts_of self.new ≡ counts_of self.old }
    {
        let (whole, _) = triples.as_chunks();
        let whole = &whole[..whole.len().min(14)];
        for (k, triple) in whole.iter().enumerate() {
            self.replace(k, row(*triple));
        }
    }
}
