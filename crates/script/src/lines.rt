// What is said to each line of a script, and what is held after it.
// Heap and number stay two parameters: the one goes to the functions that allocate, the other into the text.
ghost use Rattle.std.specs.Prelude.{◌≡◌, is_ok, IfOk, if◌then◌else◌};
ghost use Rattle.std.specs.Option.{option_map};
ghost use Rattle.words.specs.Words.{words};
ghost use Rattle.fields.specs.Fields.{Says};
ghost use Rattle.calls.specs.Lines.{line_read};
ghost use Rattle.gathered.specs.Gathered.{begun};
ghost use Rattle.script.specs.Texts.{line_next, line_spoken, over_spoken, spoken, taken_next, taken_spoken};

use crate::response::Response;
use crate::session::Session;
use fields::expected::Fault;
use gathered::LineBuffer;
use line_answers::complain;
use std::alloc::{AllocError, Global};
use words::Words;

// The call that a line is. A line without a word is none.
pub fn read_call<'a, S: Session>(heap: Global, line: &'a [u8]) -> Result<Option<S::Call>, Fault<'a>>
    ensures { Says (option_map S.heard) result (line_read S.call_read (words line.now)) }
{
    let mut rest = Words::of(line);
    match rest.next() {
        None => Ok(None),
        Some(verb) => S::named(heap, verb, &mut rest).map(Some),
    }
}

// What is said to line `number` of a script. An unreadable line leaves all that is held as it was; so does want of memory.
#[tactic(auto, unfolding(crate::specs::Texts::line_spoken, crate::specs::Texts::line_next))]
pub fn respond<S: Session>(
    session: &mut S,
    heap: Global,
    number: u64,
    line: &[u8],
) -> Result<Response, AllocError>
    ensures said { IfOk result (λ x. spoken x ≡ line_spoken S.call_read S.call_spoken number (S.held session.old) line.now) }
    ensures next { S.held session.new ≡ (if is_ok result then line_next S.call_read S.call_next (S.held session.old) line.now else S.held session.old) }
{
    match read_call::<S>(heap, line) {
        Ok(None) => Ok(Response::Nothing),
        Ok(Some(call)) => session.perform(heap, number, call),
        Err(Fault::Unreadable(why)) => complain(heap, number, why).map(Response::Unreadable),
        Err(Fault::Memory) => Err(AllocError),
    }
}

// What is said to a line that is too long.
fn too_long(heap: Global, number: u64) -> Result<Response, AllocError>
    ensures { IfOk result (λ x. spoken x ≡ over_spoken number) }
{
    let text = format!(in heap;
        "{number} unreadable: expected a line of at most 1048576 bytes, found a longer one"
    )?;
    Ok(Response::Unreadable(text))
}

// What is said to a line that was gathered, which is line `number`. The next line begins.
pub fn answer<S: Session>(
    session: &mut S,
    heap: Global,
    number: u64,
    line: &mut LineBuffer,
) -> Result<Response, AllocError>
    ensures said { IfOk result (λ x. spoken x ≡ taken_spoken S.call_read S.call_spoken number (S.held session.old) line.old) }
    ensures next { S.held session.new ≡ (if is_ok result then taken_next S.call_read S.call_next (S.held session.old) line.old else S.held session.old) }
    ensures begun { line.new ≡ begun }
{
    let said = match line.line() {
        Some(bytes) => respond(session, heap, number, bytes),
        None => too_long(heap, number),
    };
    line.begin();
    said
}
