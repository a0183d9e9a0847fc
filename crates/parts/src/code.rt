// Kinds of part that are one byte, a code.
ghost use Rattle.std.specs.Prelude.{◌≡◌, ℕ, [], ◌∷◌, Some, Option};
ghost use Rattle.std.proofs.Common.{rules};
ghost use Rattle.parts.specs.Laid.{one_byte};

use crate::part::{Part, WrongWidth, fill};

// Each part of the kind is one byte.
pub trait ByteCode: Copy {
    // The code of a part.
    ghost code: { Self → ℕ };

    // The part that a byte is the code of, if it is of one.
    ghost coded: { ℕ → Option Self };

    // The code of a part.
    fn code_of(part: Self) -> u8
        ensures { result ≡ code part };

    // The part that a byte is the code of, if it is of one.
    fn part_of(byte: u8) -> Option<Self>
        ensures { result ≡ coded byte };

    // A code is of the part whose code it is, and of no other.
    ghost returns: { (x : Self) → coded (code x) ≡ Some x };

    ghost alone: { (b : ℕ) (x : Self) → coded b ≡ Some x → code x ≡ b };
}

impl<C: ByteCode> Part for C {
    const WIDTH: usize = 1;

    ghost WIDTH = { 1 };

    ghost laid = { λ x. C.code x ∷ [] };

    ghost reads = { one_byte C.coded };

    ghost some = { Prim.search rules };

    ghost slim = { Prim.search rules };

    ghost back = { Prim.search rules };

    ghost only = { Prim.search rules };

    ghost whole = { Prim.search rules };

    fn lay(&self, out: &mut [u8]) -> Result<(), WrongWidth> {
        fill(out, &[C::code_of(*self)])
    }

    fn read(bytes: &[u8]) -> Option<C> {
        match bytes {
            [only] => C::part_of(*only),
            _ => None,
        }
    }
}
