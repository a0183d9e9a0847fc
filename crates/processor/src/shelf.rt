// A shelf: the processor over a backplane that it borrows.
ghost use Rattle.std.specs.Prelude.{◌≡◌};
ghost use Rattle.backplane.specs.Meaning.{«output_of»};
ghost use Rattle.history.specs.Shelf.{unpowered};
ghost use Rattle.processor.specs.Follows.{TiedTo};

use crate::state::State;
use backplane::configuration::Configuration;
use backplane::interface::Backplane;
use backplane::places::Output;

// Its history is no ghost field: each call promises for every history that the shelf is tied to, and a field would narrow that to one.
#[derive(Drop)]
pub struct Shelf<'b, B> {
    pub(crate) state: State,
    pub(crate) backplane: &'b mut B,
}

impl<'b, B: Backplane> Shelf<'b, B> {
    // An unpowered shelf over a backplane, which is left as it was.
    pub fn new(backplane: &'b mut B, identity: [u8; 36]) -> Shelf<'b, B>
        ensures is { result.backplane.now ≡ backplane.old }
        ensures lent { result.backplane.ghost_name ≡ backplane.entry.ghost_name }
        ensures begins { TiedTo (B.Backplane.value backplane.old) result.state unpowered }
        ensures identity { result.state.identity ≡ identity }
    {
        let state = State {
            running: None,
            identity,
        };
        Shelf { state, backplane }
    }

    // What it is fitted with.
    pub fn configuration(&self) -> Configuration
        ensures { result ≡ (B.Backplane.value self.now.backplane.now).configuration }
    {
        self.backplane.configuration()
    }

    // The number at an output, or nothing where it is not fitted.
    pub fn output(&self, at: Output) -> Option<u8>
        ensures { result ≡ output_of (B.Backplane.value self.now.backplane.now) at }
    {
        self.backplane.output(at)
    }
}
