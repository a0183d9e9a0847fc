// All outputs of a backplane, and their text.
ghost use Rattle.std.specs.Prelude.{◌≡◌, IfOk, Some};
ghost use Rattle.outputs_text.specs.Outputs.{outputs_shown, outputs_text, outside, seen};

use crate::listed::Listed;
use crate::rows::{Row, number, numbers};
use backplane::interface::Backplane;
use backplane::places::Output;
use std::alloc::{AllocError, Global};
use std::fmt;

// The number at each output: those in rows, and 0 for an alarm or a lock that is not fitted.
// The rows stand side by side, since each is printed whole and none is read along with another.
#[derive(Drop)]
pub struct OutputNumbers {
    pub lamps: Vec<u8>,
    pub connections: Vec<u8>,
    pub speeds: Vec<u8>,
    pub supplies: Vec<u8>,
    pub alarm: u8,
    pub lock: u8,
}

// Asks a backplane for its outputs.
pub fn outputs<B: Backplane>(heap: Global, b: &B) -> Result<OutputNumbers, AllocError>
    ensures { IfOk result (λ o. seen o ≡ outputs_shown (outside (B.Backplane.value b.now))) }
{
    let lamps = numbers(heap, b, Row::Lamps)?;
    let connections = numbers(heap, b, Row::Connections)?;
    let speeds = numbers(heap, b, Row::Speeds)?;
    let supplies = numbers(heap, b, Row::Supplies)?;
    Ok(OutputNumbers {
        lamps,
        connections,
        speeds,
        supplies,
        alarm: number(b, Output::Alarm),
        lock: number(b, Output::Lock),
    })
}

impl fmt::Display for OutputNumbers {
    ghost output = { λ x. Some (outputs_text (seen x)) };

    fn fmt<W: fmt::Write>(&self, f: &mut fmt::Formatter<W>) -> fmt::Result {
        let lamps = Listed(self.lamps.as_slice());
        let connections = Listed(self.connections.as_slice());
        let speeds = Listed(self.speeds.as_slice());
        let supplies = Listed(self.supplies.as_slice());
        let alarm = self.alarm;
        let lock = self.lock;
        write!(
            f,
            "lamps {lamps}; joins {connections}; speeds {speeds}; supplies {supplies}; alarm {alarm}; lock {lock}"
        )
    }
}
