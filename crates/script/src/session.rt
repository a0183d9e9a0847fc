// Which calls a program knows, and what it holds while it runs a script.
ghost use Rattle.std.specs.Prelude.{◌≡◌, ℕ, List, is_ok, IfOk, if◌then◌else◌};
ghost use Rattle.words.specs.Words.{left};
ghost use Rattle.fields.specs.Fields.{Parsed, Told};
ghost use Rattle.script.specs.Texts.{Spoken, spoken};

use crate::response::Response;
use fields::expected::Fault;
use std::alloc::{AllocError, Global};
use words::Words;

// A script as it is run: how its calls are read, what is said to each, and what is held from one line to the next.
pub trait Session: Drop {
    // A call that the program knows.
    type Call: Drop;

    // What a call asks.
    ghost Heard: { Type 0 };

    // What this call asks.
    ghost heard: { Self.Call → Heard };

    // The call that begins with a word, from the words that follow it.
    ghost call_read: { List ℕ → List (List ℕ) → Parsed Heard };

    // What is held between two lines.
    ghost Held: { Type 0 };

    // What this script holds.
    ghost held: { Self → Held };

    // What is held before the first line.
    ghost first: { Held };

    // What is said to a call of a line, by the number of the line and what is held.
    ghost call_spoken: { ℕ → Held → Heard → Spoken };

    // What is held after a call.
    ghost call_next: { Held → Heard → Held };

    // A script of which no line has come yet.
    fn begin() -> Self
        ensures { held result ≡ first };

    // The call that begins with the word `verb`, with the rest of its line: the word is taken already, since a line
    // without one is no call whatever the program.
    fn named<'a>(
        heap: Global,
        verb: &'a [u8],
        rest: &mut Words<'a>,
    ) -> Result<Self::Call, Fault<'a>>
        ensures { Told heard result (left rest.new) (call_read verb.now (left rest.old)) };

    // Performs a call of line `number`. For want of memory all that is held stays as it was.
    fn perform(
        &mut self,
        heap: Global,
        number: u64,
        call: Self::Call,
    ) -> Result<Response, AllocError>
        ensures said { IfOk result (λ x. spoken x ≡ call_spoken number (held self.old) (heard call)) }
        ensures next { held self.new ≡ (if is_ok result then call_next (held self.old) (heard call) else held self.old) };
}
