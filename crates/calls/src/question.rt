// The one call of a program for questions.
ghost use Rattle.words.specs.Words.{left};
ghost use Rattle.fields.specs.Fields.{Told};
ghost use Rattle.part_line.specs.PartLine.{asked};
ghost use Rattle.calls.specs.Question.{question_read};

use fields::expected::{Calls, Expected, Fault, Keyword, Unreadable};
use fields::reading::same;
use part_line::{PartQuestion, part_words};
use std::alloc::Global;
use words::Words;

// The question that begins with the word `verb`, with the rest of its line.
// The program with more calls spells this test and its refusal again: its refusal names other calls.
#[tactic(auto, unfolding(crate::specs::Question::question_read))]
pub fn question_named<'a>(
    heap: Global,
    verb: &'a [u8],
    rest: &mut Words<'a>,
) -> Result<PartQuestion, Fault<'a>>
    ensures { Told asked result (left rest.new) (question_read verb.now (left rest.old)) }
{
    if same(verb, Keyword::Part.text()) {
        part_words(heap, rest)
    } else {
        Err(Fault::Unreadable(Unreadable {
            expected: Expected::Call(Calls::Part),
            found: Some(verb),
        }))
    }
}
