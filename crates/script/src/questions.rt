// A script of questions for parts.
ghost use Rattle.part_line.specs.PartLine.{Asked, asked};
ghost use Rattle.calls.specs.Question.{question_read};
ghost use Rattle.script.specs.Questions.{question_spoken};

use crate::response::Response;
use crate::session::Session;
use calls::question::question_named;
use fields::expected::Fault;
use line_answers::answer_part;
use part_line::PartQuestion;
use std::alloc::{AllocError, Global};
use words::Words;

// Nothing is held between questions.
#[derive(Clone, Copy)]
pub struct Questions;

impl Session for Questions {
    type Call = PartQuestion;

    ghost Heard = { Asked };

    ghost heard = { asked };

    ghost call_read = { question_read };

    ghost Held = { Unit {0} };

    ghost held = { λ _. tt };

    ghost first = { tt };

    ghost call_spoken = { λ n _ q. question_spoken n q };

    ghost call_next = { λ h _. h };

    fn begin() -> Questions {
        Questions
    }

    fn named<'a>(
        heap: Global,
        verb: &'a [u8],
        rest: &mut Words<'a>,
    ) -> Result<PartQuestion, Fault<'a>> {
        question_named(heap, verb, rest)
    }

    fn perform(
        &mut self,
        heap: Global,
        number: u64,
        question: PartQuestion,
    ) -> Result<Response, AllocError> {
        answer_part(heap, number, &question).map(Response::Answer)
    }
}
