// A kind of part of a page.
ghost use Rattle.std.specs.Prelude.{◌≡◌, ℕ, ◌<◌, ◌≤◌, List, length, if◌then◌else◌, Some, Option, ◌==◌, is_ok, nat_eq};
ghost use Rattle.parts.specs.Bytes.{Bytes};

// The buffer is not as long as the part is wide.
#[derive(Clone, Copy)]
pub struct WrongWidth;

// Each part of a kind takes `WIDTH` bytes.
pub trait Part: Sized {
    const WIDTH: usize;

    ghost WIDTH: { ℕ };

    // The bytes of a part.
    ghost laid: { Self → List ℕ };

    // The part that bytes are, if they are one.
    ghost reads: { List ℕ → Option Self };

    // Fills `out` with the part's bytes; where `out` is not `WIDTH` long, refuses and leaves it.
    fn lay(&self, out: &mut [u8]) -> Result<(), WrongWidth>
        ensures fits { is_ok result ≡ (length out.old == WIDTH) }
        ensures laid { out.new ≡ (if nat_eq (length out.old) WIDTH then laid self.now else out.old) };

    // The part that the bytes are, if they are one.
    fn read(bytes: &[u8]) -> Option<Self>
        ensures { result ≡ reads bytes.now };

    ghost some: { 0 < WIDTH };

    ghost slim: { WIDTH ≤ 4 };

    // What is laid reads as that part.
    ghost back: { (x : Self) → reads (laid x) ≡ Some x };

    // Other bytes are no part.
    ghost only: { (bs : List ℕ) (x : Self) → Bytes bs → reads bs ≡ Some x → laid x ≡ bs };

    // Nor are too few or too many.
    ghost whole: { (bs : List ℕ) (x : Self) → reads bs ≡ Some x → length bs ≡ WIDTH };

    // So every part takes that many bytes.
    ghost wide: { (x : Self) → length (laid x) ≡ WIDTH } = { λ x. whole (laid x) x (back x) };
}

// Copies the bytes into `out`; where it has another length, refuses and leaves it.
pub(crate) fn fill(out: &mut [u8], bytes: &[u8]) -> Result<(), WrongWidth>
    ensures fits { is_ok result ≡ (length out.old == length bytes.now) }
    ensures filled { out.new ≡ (if nat_eq (length out.old) (length bytes.now) then bytes.now else out.old) }
{
    if out.len() != bytes.len() {
        return Err(WrongWidth);
    }
    out.copy_from_slice(bytes);
    Ok(())
}
