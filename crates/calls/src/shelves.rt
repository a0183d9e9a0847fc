// The calls of a program that knows shelves.
ghost use Rattle.words.specs.Words.{left};
ghost use Rattle.fields.specs.Fields.{Told};
ghost use Rattle.calls.specs.Shelves.{call_read, heard};

use fields::expected::{Calls, Expected, Fault, Keyword, Unreadable};
use fields::reading;
use part_line::{PartQuestion, part_words};
use shelf_line::{ShelfAsked, shelf_words};
use std::alloc::Global;
use words::Words;

// A call of a script.
#[derive(Drop)]
pub enum Call {
    Shelf(ShelfAsked),
    Outputs,
    Part(PartQuestion),
}

// The call that begins with the word `verb`, with the rest of its line.
// The words are those of `Keyword`, which a pattern could not name.
#[tactic(auto, unfolding(crate::specs::Shelves::call_read))]
pub fn call_named<'a>(heap: Global, verb: &'a [u8], rest: &mut Words<'a>) -> Result<Call, Fault<'a>>
    ensures { Told heard result (left rest.new) (call_read verb.now (left rest.old)) }
{
    if reading::same(verb, Keyword::Shelf.text()) {
        let asked = shelf_words(heap, rest)?;
        Ok(Call::Shelf(asked))
    } else if reading::same(verb, Keyword::Outputs.text()) {
        reading::end(rest)?;
        Ok(Call::Outputs)
    } else if reading::same(verb, Keyword::Part.text()) {
        let question = part_words(heap, rest)?;
        Ok(Call::Part(question))
    } else {
        Err(Fault::Unreadable(Unreadable {
            expected: Expected::Call(Calls::Shelves),
            found: Some(verb),
        }))
    }
}
