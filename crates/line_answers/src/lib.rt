// The text that answers a question, and the text of a complaint, each behind the number of its line.
// Heap and number stay two parameters: the one goes to the functions that allocate, the other into the text.
// Each text puts the number in front itself: put there once, it would take a type with a `Display` for each text.
#![tactic(auto)]

ghost use Rattle.std.specs.Prelude.{◌≡◌, IfOk, string_bytes};
ghost use Rattle.fields.specs.Fields.{seen};
ghost use Rattle.part_line.specs.PartLine.{asked};
ghost use Rattle.line_answers.specs.Texts.{asked_text, bad_text, numbered};

use fields::expected::Unreadable;
use part_line::PartQuestion;
use printed::{Quoted, Spaced};
use reader::fault::Found;
use reader::layers::read_part;
use std::alloc::{AllocError, Global};

// The reader's answer to a question.
pub fn answer_part(heap: Global, line: u64, question: &PartQuestion) -> Result<String, AllocError>
    ensures { IfOk result (λ s. string_bytes s ≡ numbered line (asked_text (asked question.now))) }
{
    match read_part(
        question.config.as_slice(),
        question.page.as_slice(),
        question.run,
        question.number as usize,
    ) {
        Ok(Found { place, bytes }) => {
            let bytes = Spaced(bytes);
            format!(in heap; "{line} part: place {place}, bytes {bytes}")
        }
        Err(fault) => {
            let number = u32::from(fault);
            format!(in heap; "{line} part: refused {number}")
        }
    }
}

// That a line is unreadable, and why.
#[tactic(auto, unfolding(crate::specs::Texts::bad_text))]
pub fn complain(heap: Global, line: u64, why: Unreadable<'_>) -> Result<String, AllocError>
    ensures { IfOk result (λ s. string_bytes s ≡ numbered line (bad_text (seen why.entry))) }
{
    let Unreadable { expected, found } = why;
    match found {
        Some(word) => {
            let word = Quoted(word);
            format!(in heap; "{line} unreadable: expected {expected}, found `{word}`")
        }
        None => format!(in heap;
            "{line} unreadable: expected {expected}, found the end of the line"
        ),
    }
}
