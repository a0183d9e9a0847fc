// The text that answers a call about shelves, behind the number of its line.
// Heap and number stay two parameters: the one goes to the functions that allocate, the other into the text.
// Each text puts the number in front itself: put there once, it would take a type with a `Display` for each text.
#![tactic(auto)]

ghost use Rattle.std.specs.Prelude.{◌≡◌, IfOk, string_bytes};
ghost use Rattle.held_shelf.specs.Kept.{kept};
ghost use Rattle.line_answers.specs.Texts.{bad_text, numbered};
ghost use Rattle.shelf_answers.specs.Texts.{held_text, made_text, no_shelf};

use fields::expected::{Expected, Keyword, Unreadable};
use held_shelf::HeldShelf;
use line_answers::complain;
use outputs_text::listed::Listed;
use printed::Spaced;
use std::alloc::{AllocError, Global};

// That a shelf was made, and its lamps.
pub fn answer_shelf(heap: Global, line: u64, shelf: &HeldShelf) -> Result<String, AllocError>
    ensures { IfOk result (λ s. string_bytes s ≡ numbered line (made_text (kept shelf.now))) }
{
    let outputs = shelf.outputs(heap)?;
    let lamps = Listed(outputs.lamps.as_slice());
    format!(in heap; "{line} shelf: made; lamps {lamps}")
}

// The outputs of a shelf, and the image of a packed one.
pub fn answer_outputs(heap: Global, line: u64, shelf: &HeldShelf) -> Result<String, AllocError>
    ensures { IfOk result (λ s. string_bytes s ≡ numbered line (held_text (kept shelf.now))) }
{
    let outputs = shelf.outputs(heap)?;
    match shelf.image() {
        Some(image) => {
            let image = Spaced(image);
            format!(in heap; "{line} outputs: {outputs}; image {image}")
        }
        None => format!(in heap; "{line} outputs: {outputs}"),
    }
}

// That a call came before any shelf was made.
pub fn want_shelf(heap: Global, line: u64, name: Keyword) -> Result<String, AllocError>
    ensures { IfOk result (λ s. string_bytes s ≡ numbered line (bad_text (no_shelf name))) }
{
    complain(
        heap,
        line,
        Unreadable {
            expected: Expected::ShelfBefore,
            found: Some(name.text().as_bytes()),
        },
    )
}
