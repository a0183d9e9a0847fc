// What is said to each call of a script that speaks of shelves, and the shelf that is held after it.
// Heap and number stay two parameters: the one goes to the functions that allocate, the other into the text.
ghost use Rattle.std.specs.Prelude.{◌≡◌, is_ok, IfOk, if◌then◌else◌, Some, None, Option};
ghost use Rattle.std.specs.Option.{option_map};
ghost use Rattle.calls.specs.Shelves.{Heard, call_read, heard};
ghost use Rattle.held_shelf.specs.Kept.{Kept, kept, made_shelf};
ghost use Rattle.script.specs.Texts.{spoken};
ghost use Rattle.shelf_line.specs.ShelfLine.{shelf_of};
ghost use Rattle.shelf_script.specs.Texts.{call_next, call_spoken, outputs_spoken, shelf_spoken};

use calls::shelves::{Call, call_named};
use fields::expected::{Fault, Keyword};
use held_shelf::HeldShelf;
use line_answers::answer_part;
use script::response::Response;
use script::session::Session;
use shelf_answers::{answer_outputs, answer_shelf, want_shelf};
use shelf_line::ShelfAsked;
use std::alloc::{AllocError, Global};
use words::Words;

// The shelf that is held, if one was made.
#[derive(Drop)]
pub struct Shelves {
    pub held: Option<HeldShelf>,
}

impl Shelves {
    // Makes a shelf, which is then held. For want of memory the old one stays.
    fn make_shelf(
        &mut self,
        heap: Global,
        number: u64,
        asked: ShelfAsked,
    ) -> Result<Response, AllocError>
        ensures said { IfOk result (λ x. spoken x ≡ shelf_spoken number (shelf_of asked)) }
        ensures next { option_map kept self.new.held ≡ (if is_ok result then Some (made_shelf (shelf_of asked)) else option_map kept self.old.held) }
    {
        let shelf = HeldShelf::make(asked);
        let text = answer_shelf(heap, number, &shelf)?;
        self.held = Some(shelf);
        Ok(Response::Answer(text))
    }

    // The outputs of the shelf that is held.
    fn tell_outputs(&self, heap: Global, number: u64) -> Result<Response, AllocError>
        ensures { IfOk result (λ x. spoken x ≡ outputs_spoken number (option_map kept self.now.held)) }
    {
        match &self.held {
            Some(shelf) => answer_outputs(heap, number, shelf).map(Response::Answer),
            None => want_shelf(heap, number, Keyword::Outputs).map(Response::Unreadable),
        }
    }
}

impl Session for Shelves {
    type Call = Call;

    ghost Heard = { Heard };

    ghost heard = { heard };

    ghost call_read = { call_read };

    ghost Held = { Option Kept };

    ghost held = { λ s. option_map kept s.held };

    ghost first = { None };

    ghost call_spoken = { call_spoken };

    ghost call_next = { call_next };

    fn begin() -> Shelves {
        Shelves { held: None }
    }

    fn named<'a>(heap: Global, verb: &'a [u8], rest: &mut Words<'a>) -> Result<Call, Fault<'a>> {
        call_named(heap, verb, rest)
    }

    fn perform(&mut self, heap: Global, number: u64, call: Call) -> Result<Response, AllocError> {
        match call {
            Call::Shelf(asked) => self.make_shelf(heap, number, asked),
            Call::Outputs => self.tell_outputs(heap, number),
            Call::Part(question) => answer_part(heap, number, &question).map(Response::Answer),
        }
    }
}
