// What a shelf remembers besides its hosts.
use crate::rows::Table;

// The table of slots, and the three global flags.
#[derive(Clone, Copy)]
pub struct Memory {
    pub table: Table,
    pub flags: [u8; 3],
}
