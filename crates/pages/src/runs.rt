// Runs laid one after another from the front of a buffer.
ghost use Rattle.std.specs.Prelude.{◌≡◌, ◌+◌, ◌*◌, ◌++◌, length, nat_le};
ghost use Rattle.std.specs.List.{flat_map};
ghost use Rattle.parts.specs.Laid.{byte_laid};
ghost use Rattle.pages.specs.Into.{laid_front, length_within};

use part_runs::put_run;
use parts::kinds::PlainByte;
use parts::part::Part;

// Whether `count` parts of `width` bytes and `more` bytes fit into `len` bytes.
fn fit(count: usize, width: usize, more: usize, len: usize) -> bool
    ensures { result ≡ nat_le (count * width + more) len }
{
    count
        .checked_mul(width)
        .is_some_and(|run| more <= len && run <= len - more)
}

// Lays a page that is a run and then plain bytes, and answers its length. Where the buffer is too small, answers `None` and leaves it.
pub(crate) fn lay_with_end<P: Part>(
    parts: &[P],
    end: &[PlainByte],
    buffer: &mut [u8],
) -> Option<usize>
    ensures len { result ≡ length_within (flat_map P.Part.laid parts.now ++ flat_map byte_laid end.now) (length buffer.old) }
    ensures page { buffer.new ≡ laid_front (flat_map P.Part.laid parts.now ++ flat_map byte_laid end.now) buffer.old }
{
    if !fit(parts.len(), P::WIDTH, end.len(), buffer.len()) {
        return None;
    }
    let at = put_run(parts, buffer, 0);
    Some(put_run(end, buffer, at))
}
