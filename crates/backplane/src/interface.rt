// The backplane, as the processor sees it.
ghost use Rattle.std.specs.Prelude.{◌≡◌, ℕ, List, is_ok, Option};
ghost use Rattle.backplane.specs.Meaning.{Bounded, Inputs, Value, fits as fitting, «input_of», «output_of», put, «reads_well», sampled};
ghost use Rattle.backplane.specs.declared.configuration.Configuration.{Configuration as Parts};

use crate::configuration::Configuration;
use crate::places::{Input, Output};

// The part is not fitted, or the number is out of range.
#[derive(Clone, Copy)]
pub struct Unfit;

// The frame reads as nothing.
#[derive(Clone, Copy)]
pub struct Unread;

// What stands at an input or an output is a number and has no type of its own: a caller's image may hold any number at an output, and `set` refuses those out of range.
pub trait Backplane {
    // What the backplane means: its configuration, its inputs and its outputs.
    ghost value: { Self → Value };

    // What a frame reads as, by the frame and the configuration alone.
    ghost reading: { Parts → List ℕ → Option Inputs };

    // The counts of its configuration are in range, or it has none at all.
    ghost bounded: { (b : Self) → Bounded (value b).configuration };

    fn configuration(&self) -> Configuration
        ensures { result ≡ (value self.now).configuration };

    // The number at an input, or nothing where it is not fitted.
    fn input(&self, at: Input) -> Option<u8>
        ensures { result ≡ input_of (value self.now) at };

    // The number at an output, or nothing where it is not fitted.
    fn output(&self, at: Output) -> Option<u8>
        ensures { result ≡ output_of (value self.now) at };

    // Makes the inputs what the frame reads as. A frame that reads as nothing is refused.
    fn sample(&mut self, frame: &[u8]) -> Result<(), Unread>
        ensures says { is_ok result ≡ reads_well (reading (value self.old).configuration frame.now) }
        ensures does { value self.new ≡ sampled (value self.old) (reading (value self.old).configuration frame.now) };

    // Sets one output. A part that is not fitted, or a number out of range, is refused.
    fn set(&mut self, at: Output, number: u8) -> Result<(), Unfit>
        ensures says { is_ok result ≡ fitting (value self.old).configuration at number }
        ensures does { value self.new ≡ put (value self.old) at number };
}
