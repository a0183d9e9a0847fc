// The numbers of faults and runs.
ghost use Rattle.std.specs.Prelude.{◌≡◌};
ghost use Rattle.reader.specs.Numbers.{fault_number, run_numbered};

use crate::fault::{Fault, Run};

// The number by which the fault is known.
impl From<Fault> for u32 {
    ghost from_gives = { λ fault number. number ≡ fault_number fault };

    fn from(fault: Fault) -> u32 {
        match fault {
            Fault::Configuration => 7,
            Fault::Short => 8,
            Fault::Number => 9,
            Fault::NoPart => 10,
        }
    }
}

// The run that a number names; a number that names none is of a run that the reader does not know.
impl From<u32> for Run {
    ghost from_gives = { λ number run. run ≡ run_numbered number };

    fn from(number: u32) -> Run {
        match number {
            0 => Run::Fans,
            1 => Run::Supplies,
            2 => Run::Ids,
            3 => Run::Temperatures,
            4 => Run::Slots,
            5 => Run::Counts,
            _ => Run::Unknown,
        }
    }
}
