// An order, as it is decoded.

// What an order does with a slot. `Idle` is an operation and no `None`: an order that asks for nothing is obeyed, and its slot is shown.
#[derive(Clone, Copy)]
pub enum Operation {
    Idle,
    Prepare,
    Release,
    Identify,
}

#[derive(Clone, Copy)]
pub enum Order<'a> {
    // three bytes for each slot; bytes and no triples, since the table stores the triples of any bytes
    Triples(&'a [u8]),
    Operate { slot: usize, operation: Operation },
    Speed { fan: usize, speed: u8 },
    Switch { supply: usize, on: bool },
    // the three bytes of global flags as they came, in an array as a shelf has it
    Global([u8; 3]),
}
