// The number at each output of a backplane.
ghost use Rattle.std.specs.Prelude.{◌≡◌, IfOk};
ghost use Rattle.outputs_text.specs.Outputs.{number_at, outside, row_shown};

use backplane::interface::Backplane;
use backplane::places::Output;
pub use backplane::rows::Row;
use std::alloc::{AllocError, Global};

// The number at an output, and 0 where it is not fitted.
pub fn number<B: Backplane>(b: &B, at: Output) -> u8
    ensures { result ≡ number_at (outside (B.Backplane.value b.now)) at }
{
    b.output(at).unwrap_or(0)
}

// The numbers of a row. The row is a value and no closure that finds the places, since contracts name rows.
#[tactic(auto, unfolding(crate::specs::Outputs::row_shown))]
pub fn numbers<B: Backplane>(heap: Global, b: &B, row: Row) -> Result<Vec<u8>, AllocError>
    ensures { IfOk result (λ v. v.items ≡ row_shown (outside (B.Backplane.value b.now)) row) }
{
    (0..row.length(b.configuration()))
        .map(|k| number(b, row.place(k as usize)))
        .collect(heap)
}
