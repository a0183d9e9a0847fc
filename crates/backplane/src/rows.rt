// The outputs of a backplane that come in rows.
ghost use Rattle.std.specs.Prelude.{◌≡◌};
ghost use Rattle.backplane.specs.Rows.{place_in, row_length};

use crate::configuration::Configuration;
use crate::places::Output;

// A row has an output for each slot, each fan or each supply.
#[derive(Clone, Copy)]
pub enum Row {
    Lamps,
    Connections,
    Speeds,
    Supplies,
}

impl Row {
    // How many outputs the row has.
    pub fn length(self, c: Configuration) -> u8
        ensures { result ≡ row_length self c }
    {
        match self {
            Row::Lamps | Row::Connections => c.counts.slots,
            Row::Speeds => c.counts.fans,
            Row::Supplies => c.counts.supplies,
        }
    }

    // Output `k` of the row.
    pub fn place(self, k: usize) -> Output
        ensures { result ≡ place_in self k }
    {
        match self {
            Row::Lamps => Output::Lamp(k),
            Row::Connections => Output::Connection(k),
            Row::Speeds => Output::Speed(k),
            Row::Supplies => Output::Supply(k),
        }
    }
}
