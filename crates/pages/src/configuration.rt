// The configuration page.
ghost use Rattle.std.specs.Prelude.{◌≡◌, ◌≤◌, true, length, Ok};
ghost use Rattle.enclosure.specs.Ranges.{in_range};
ghost use Rattle.reader.specs.Reads.{counts_of};
ghost use Rattle.pages.specs.Into.{laid_front, length_within};
ghost use Rattle.pages.specs.Pages.{configuration_page};

use crate::runs::lay_with_end;
use enclosure::counts::PartCounts;
use parts::kinds::PlainByte;

// Lays the configuration page, where `lock` and `alarm` say whether they are fitted, and answers its length. Where the buffer is too small, answers `None` and leaves it.
// Of counts in range, the reader reads those counts.
pub fn lay_configuration(
    counts: PartCounts,
    lock: bool,
    alarm: bool,
    buffer: &mut [u8],
) -> Option<usize>
    ensures len { result ≡ length_within (configuration_page counts lock alarm) (length buffer.old) }
    ensures page { buffer.new ≡ laid_front (configuration_page counts lock alarm) buffer.old }
    ensures size { length (configuration_page counts lock alarm) ≡ 64 }
    ensures back { in_range counts ≡ true → 64 ≤ length buffer.old → counts_of buffer.new ≡ Ok counts }
{
    let (lock, alarm) = (u8::from(lock), u8::from(alarm));
    let fields = [
        PlainByte(counts.fans),
        PlainByte(counts.supplies),
        PlainByte(counts.slots),
        PlainByte(lock),
        PlainByte(counts.sensors),
        PlainByte(alarm),
        PlainByte(counts.thermostats),
    ];
    lay_with_end(&fields, &[PlainByte(0x00); 57], buffer)
}
