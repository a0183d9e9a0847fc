// Where the outputs stand in the image.
ghost use Rattle.std.specs.Prelude.{◌≡◌, ◌<◌};
ghost use Rattle.backplane.specs.Meaning.{index};
ghost use Rattle.packed.specs.Layout.{cell_of};

use backplane::places::Output;
use bits::Cell;

// The cell of an output. It is no `From`, since it has a requirement, and a `From` can have none.
pub(crate) fn place(at: Output) -> Cell
    requires { index at < 100 }
    ensures { result ≡ cell_of at }
{
    match at {
        Output::Lamp(k) => Cell::Half(k),
        Output::Connection(k) => Cell::Bit(56 + k),
        Output::Speed(k) => Cell::Half(18 + k),
        Output::Supply(k) => Cell::Bit(136 + k),
        Output::Alarm => Cell::Bit(144),
        Output::Lock => Cell::Bit(145),
    }
}
