// The shelf that a script holds: that of its last `shelf` line.
#![tactic(auto)]

ghost use Rattle.std.specs.Prelude.{◌≡◌, IfOk};
ghost use Rattle.std.specs.Option.{option_map};
ghost use Rattle.outputs_text.specs.Outputs.{outputs_shown, seen};
ghost use Rattle.shelf_line.specs.ShelfLine.{parts_of, shelf_of};
ghost use Rattle.held_shelf.specs.Kept.{image_of, kept, made_shelf, outside_of, packed_outside};

use backplane::configuration::Fittings;
use outputs_text::shown::{OutputNumbers, outputs};
use packed::held::Packed;
use plain::held::Plain;
use shelf_line::{ShelfAsked, ShelfParts};
use std::alloc::{AllocError, Global};

// The two kinds of shelf are two types, since they hold different things: a plain one holds its backplane.
#[derive(Drop)]
pub struct PlainShelf {
    pub parts: ShelfParts,
    pub backplane: Plain,
}

// A packed shelf is kept as its image; its backplane is made over it when it is asked.
#[derive(Drop)]
pub struct PackedShelf {
    pub parts: ShelfParts,
    pub image: Vec<u8>,
}

#[derive(Drop)]
pub enum HeldShelf {
    Plain(PlainShelf),
    Packed(PackedShelf),
}

// What a shelf with these parts is to be fitted with. It is no `From`, since both types are of other crates.
fn fittings(parts: &ShelfParts) -> Fittings<'_>
    ensures counts { result.counts ≡ parts.now.counts }
    ensures lock { result.lock ≡ parts.now.lock }
    ensures alarm { result.alarm ≡ parts.now.alarm }
    ensures ids { result.ids.now ≡ parts.now.ids.items }
{
    Fittings {
        counts: parts.counts,
        lock: parts.lock,
        alarm: parts.alarm,
        ids: parts.ids.as_slice(),
    }
}

// The outputs of a packed backplane with these parts over an image.
fn packed_outputs(
    heap: Global,
    parts: &ShelfParts,
    image: &mut [u8],
) -> Result<OutputNumbers, AllocError>
    ensures { IfOk result (λ o. seen o ≡ outputs_shown (packed_outside (parts_of parts.now) image.old)) }
{
    let backplane = Packed::new(fittings(parts), image);
    outputs(heap, &backplane)
}

impl HeldShelf {
    // The shelf that a line asks for.
    pub fn make(asked: ShelfAsked) -> HeldShelf
        ensures { kept result ≡ made_shelf (shelf_of asked) }
    {
        let ShelfAsked { parts, image } = asked;
        match image {
            None => {
                let backplane = Plain::new(fittings(&parts));
                HeldShelf::Plain(PlainShelf { parts, backplane })
            }
            Some(image) => HeldShelf::Packed(PackedShelf { parts, image }),
        }
    }

    // The number at each output. A packed backplane is asked over a copy of its image, so that no bit can change.
    pub fn outputs(&self, heap: Global) -> Result<OutputNumbers, AllocError>
        ensures { IfOk result (λ o. seen o ≡ outputs_shown (outside_of (kept self.now))) }
    {
        match self {
            HeldShelf::Plain(shelf) => outputs(heap, &shelf.backplane),
            HeldShelf::Packed(shelf) => {
                let mut copy = Vec::from_slice(heap, shelf.image.as_slice())?;
                packed_outputs(heap, &shelf.parts, copy.as_mut_slice())
            }
        }
    }

    // The image of a packed shelf.
    pub fn image(&self) -> Option<&[u8]>
        ensures { option_map (λ x. x.now) result ≡ image_of (kept self.now) }
    {
        match self {
            HeldShelf::Plain(_) => None,
            HeldShelf::Packed(shelf) => Some(shelf.image.as_slice()),
        }
    }
}
