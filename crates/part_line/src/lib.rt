// What follows the word `part` on a line.
#![tactic(auto)]

ghost use Rattle.words.specs.Words.{left};
ghost use Rattle.fields.specs.Fields.{Told};
ghost use Rattle.part_line.specs.PartLine.{asked, part_asked, part_words};

use fields::expected::{Fault, Keyword};
use fields::reading;
use reader::fault::Run;
use std::alloc::Global;
use words::Words;

// Which part of a page is wanted.
#[derive(Drop)]
pub struct PartQuestion {
    pub config: Vec<u8>,
    pub page: Vec<u8>,
    pub run: Run,
    pub number: u32,
}

// The question, without the end of the line.
// The heap stays a parameter beside the words: it shows which readings can run out of memory.
fn question<'a>(heap: Global, words: &mut Words<'a>) -> Result<PartQuestion, Fault<'a>>
    ensures { Told asked result (left words.new) (part_asked (left words.old)) }
{
    let config = reading::named_bytes(heap, words, Keyword::Config)?;
    let page = reading::named_bytes(heap, words, Keyword::Page)?;
    reading::keyword(words, Keyword::Run)?;
    let run = reading::run(words)?;
    reading::keyword(words, Keyword::Number)?;
    let number = reading::number(words, u32::MAX)?;
    Ok(PartQuestion {
        config,
        page,
        run,
        number,
    })
}

// The question that the words after `part` ask, all of them.
// The end of the line is read here and not by a function of any reading, whose contract would say by the reading's `post` what is one equation here.
#[tactic(auto, unfolding(crate::specs::PartLine::part_words))]
pub fn part_words<'a>(heap: Global, words: &mut Words<'a>) -> Result<PartQuestion, Fault<'a>>
    ensures { Told asked result (left words.new) (part_words (left words.old)) }
{
    let question = question(heap, words)?;
    reading::end(words)?;
    Ok(question)
}
