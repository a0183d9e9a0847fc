// Making a packed backplane, and what it shows to code above.
ghost use Rattle.std.specs.Prelude.{◌≡◌, ℕ, replicate, is_ok};
ghost use Rattle.bits.specs.Image.{bit};
ghost use Rattle.backplane.specs.Configured.{asked};
ghost use Rattle.backplane.specs.Meaning.{fits, put};
ghost use Rattle.packed.specs.Frame.{reading as packed_reading};
ghost use Rattle.packed.specs.Layout.{bit_set, fitted, fitted_over, made_over, value_of};

use crate::held::Packed;
use backplane::configuration::{Configuration, Fittings};
use backplane::interface::{Backplane, Unfit};
use backplane::places::Output;

// A plain backplane has `new` and `shows` too, with no image and over other fields: a trait for both would have a ghost member for each side of each equation, and nothing calls them without knowing which of the two it has.
impl<'a> Packed<'a> {
    // A backplane with these fittings over the caller's image, no bit of which is written, all its inputs 0.
    // Where a count is out of range, the IDs are not one for each slot, an ID is above 15 or the image has under 19 bytes, it has nothing at all.
    pub fn new(fittings: Fittings, image: &'a mut [u8]) -> Packed<'a>
        ensures holds { value_of result.configuration result.frame result.image.now result.image.ghost_name ≡ value_of (asked fittings.entry) (replicate 33 0) image.old image.entry.ghost_name }
        ensures shows { ⟦<Packed<'a> as Backplane>⟧.value result ≡ made_over (fitted_over fittings.entry image.old) image.old image.entry.ghost_name }
        ensures image { result.image.now ≡ image.old }
    {
        Packed {
            configuration: Configuration::from(fittings),
            frame: [0; 33],
            image,
        }
    }

    // Nothing is done. The value of which the interface speaks is that of the fields, and frames read as the packed frame is defined.
    pub fn shows(&self)
        ensures value { ⟦<Packed<'a> as Backplane>⟧.value self.now ≡ value_of self.now.configuration self.now.frame self.now.image.now self.now.image.ghost_name }
        ensures reading { ⟦<Packed<'a> as Backplane>⟧.reading ≡ packed_reading }
    {}

    // Sets one output as the interface does. What fits is in the output's cell then, and every other bit of the image, in its 19 bytes and past them, is as it was.
    pub fn write(&mut self, at: Output, number: u8) -> Result<(), Unfit>
        ensures says { is_ok result ≡ fits (fitted self.old.configuration self.old.image.now) at number }
        ensures bits { (k : ℕ) → bit self.new.image.now k ≡ bit_set (fitted self.old.configuration self.old.image.now) at number self.old.image.now k }
        ensures lent { self.new.image.ghost_name ≡ self.old.image.ghost_name }
        ensures does { value_of self.new.configuration self.new.frame self.new.image.now self.new.image.ghost_name ≡ put (value_of self.old.configuration self.old.frame self.old.image.now self.old.image.ghost_name) at number }
    {
        self.set(at, number)
    }
}
