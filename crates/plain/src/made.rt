// Making a plain backplane, and what it shows to code above.
ghost use Rattle.std.specs.Prelude.{◌≡◌};
ghost use Rattle.backplane.specs.Configured.{asked};
ghost use Rattle.plain.specs.Frame.{reading as plain_reading};
ghost use Rattle.plain.specs.Held.{made_with, value_of};

use crate::held::Plain;
use crate::tables::Tables;
use backplane::configuration::{Configuration, Fittings};
use backplane::interface::Backplane;

// A packed backplane has `new` and `shows` too, with an image more and over other fields: a trait for both would have a ghost member for each side of each equation, and nothing calls them without knowing which of the two it has.
impl Plain {
    // A backplane with these fittings, all its inputs and outputs 0. Where a count is out of range, the IDs are not one for each slot or an ID is above 15, it has nothing at all.
    pub fn new(fittings: Fittings) -> Plain
        ensures holds { value_of result.configuration result.tables ≡ made_with (asked fittings.entry) }
        ensures shows { ⟦<Plain as Backplane>⟧.value result ≡ made_with (asked fittings.entry) }
    {
        Plain {
            configuration: Configuration::from(fittings),
            tables: Tables::blank(),
        }
    }

    // Nothing is done. The value of which the interface speaks is that of the fields, and frames read as the plain frame is defined.
    pub fn shows(&self)
        ensures value { ⟦<Plain as Backplane>⟧.value self.now ≡ value_of self.now.configuration self.now.tables }
        ensures reading { ⟦<Plain as Backplane>⟧.reading ≡ plain_reading }
    {}
}
