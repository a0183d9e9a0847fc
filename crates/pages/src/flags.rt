// The page of global flags.
ghost use Rattle.std.specs.Prelude.{◌≡◌, length};
ghost use Rattle.pages.specs.Into.{laid_front, length_within};
ghost use Rattle.pages.specs.Pages.{global_flags_page};

use crate::runs::lay_with_end;
use parts::kinds::PlainByte;

// Lays the page of global flags and answers its length. Where the buffer is too small, answers `None` and leaves it.
pub fn lay_global_flags(flags: [u8; 3], buffer: &mut [u8]) -> Option<usize>
    ensures len { result ≡ length_within (global_flags_page flags) (length buffer.old) }
    ensures page { buffer.new ≡ laid_front (global_flags_page flags) buffer.old }
    ensures size { length (global_flags_page flags) ≡ 16 }
{
    let [first, second, third] = flags;
    let fields = [PlainByte(first), PlainByte(second), PlainByte(third)];
    lay_with_end(&fields, &[PlainByte(0x00); 13], buffer)
}
