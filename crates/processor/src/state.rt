// What a shelf keeps besides its backplane.
use hosts::Hosts;
use table::memory::Memory;

// What it keeps while it is powered. A call changes it in place, once nothing can refuse the call any more.
#[derive(Clone, Copy)]
pub struct Running {
    pub(crate) memory: Memory,
    pub(crate) hosts: Hosts,
}

#[derive(Clone, Copy)]
pub struct State {
    // Nothing while it is unpowered.
    pub(crate) running: Option<Running>,
    pub(crate) identity: [u8; 36],
}
