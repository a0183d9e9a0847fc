// The fields of a command.
#![tactic(auto)]

ghost use Rattle.std.specs.Prelude.{◌≡◌};
ghost use Rattle.cdb.specs.Heard.{heard};
ghost use Rattle.history.specs.Cdb.{buffer_id, field, ill_formed, long_length, mode, opcode, sent, short_length, unit};

pub mod opcode;

use crate::opcode::cdb_length;

// A command: the host that sends it, its CDB, its data, and the room in the reply buffer.
#[derive(Clone, Copy)]
pub struct Command<'a> {
    pub host: u8,
    pub cdb: &'a [u8],
    pub payload: &'a [u8],
    pub room: usize,
}

impl<'a> Command<'a> {
    // Byte `k` of the CDB, or 0 past its end.
    fn field(self, k: usize) -> u8
        ensures { result ≡ field (heard self.entry) k }
    {
        self.cdb.get(k).copied().unwrap_or(0)
    }

    // The first byte. It, the buffer ID and the short length are three names for three bytes, as the clauses have them.
    pub fn opcode(self) -> u8
        ensures { result ≡ opcode (heard self.entry) }
    {
        self.field(0)
    }

    // The logical unit.
    pub fn unit(self) -> u8
        ensures { result ≡ unit (heard self.entry) }
    {
        self.field(1) / 32
    }

    pub fn mode(self) -> u8
        ensures { result ≡ mode (heard self.entry) }
    {
        self.field(1) % 8
    }

    pub fn buffer_id(self) -> u8
        ensures { result ≡ buffer_id (heard self.entry) }
    {
        self.field(2)
    }

    // The allocation length of a CDB of 6 bytes.
    pub fn short_length(self) -> u8
        ensures { result ≡ short_length (heard self.entry) }
    {
        self.field(4)
    }

    // The length of a CDB of 10 bytes.
    pub fn long_length(self) -> usize
        ensures { result ≡ long_length (heard self.entry) }
    {
        usize::from(u16::from_be_bytes([self.field(7), self.field(8)]))
    }

    // Whether the CDB has under 2 bytes, or another length than its opcode has.
    pub fn is_ill_formed(self) -> bool
        ensures { result ≡ ill_formed (heard self.entry) }
    {
        let len = self.cdb.len();
        len < 2 || cdb_length(self.opcode()).is_some_and(|known| len != known)
    }

    // The bytes of a WRITE BUFFER that are transferred.
    pub fn sent(self) -> &'a [u8]
        ensures { result.now ≡ sent (heard self.entry) }
    {
        let len = self.long_length();
        self.payload.get(..len).unwrap_or(self.payload)
    }
}
