// The slot page and the insertion page.
ghost use Rattle.std.specs.Prelude.{◌≡◌, ◌+◌, ◌*◌, length};
ghost use Rattle.pages.specs.Into.{laid_front, length_within};
ghost use Rattle.pages.specs.Pages.{insertions_page, slots_page};
ghost use Rattle.pages.specs.ReadBack.{InsertionsBack, SlotsBack};

use crate::runs::lay_with_end;
use part_runs::lay_run;
use parts::kinds::{InsertionCount, PlainByte, Slot};

// Lays the slot page and answers its length. Where the buffer is too small, answers `None` and leaves it.
pub fn lay_slots(slots: &[Slot], buffer: &mut [u8]) -> Option<usize>
    ensures len { result ≡ length_within (slots_page slots.now) (length buffer.old) }
    ensures page { buffer.new ≡ laid_front (slots_page slots.now) buffer.old }
    ensures size { length (slots_page slots.now) ≡ 4 * length slots.now + 1 }
    ensures back { SlotsBack slots.now buffer.old buffer.new }
{
    lay_with_end(slots, &[PlainByte(0x00)], buffer)
}

// Lays the insertion page and answers its length. Where the buffer is too small, answers `None` and leaves it.
pub fn lay_insertions(counts: &[InsertionCount], buffer: &mut [u8]) -> Option<usize>
    ensures len { result ≡ length_within (insertions_page counts.now) (length buffer.old) }
    ensures page { buffer.new ≡ laid_front (insertions_page counts.now) buffer.old }
    ensures size { length (insertions_page counts.now) ≡ 2 * length counts.now }
    ensures back { InsertionsBack counts.now buffer.old buffer.new }
{
    lay_run(counts, buffer, 0)
}
