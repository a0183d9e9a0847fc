// The commands that a shelf knows, by the first byte of a CDB.
ghost use Rattle.std.specs.Prelude.{◌≡◌};
ghost use Rattle.std.specs.Option.{ok_or};
ghost use Rattle.cdb.specs.Opcodes.{cdb_length, opcode_read};

// What the first byte of a CDB is.
#[derive(Clone, Copy)]
pub enum Opcode {
    TestUnitReady,
    RequestSense,
    Inquiry,
    SendDiagnostic,
    WriteBuffer,
    ReadBuffer,
}

// A byte that is no opcode of a shelf.
#[derive(Clone, Copy)]
pub struct UnknownOpcode(pub u8);

// The opcode that a byte is, if it is one.
impl TryFrom<u8> for Opcode {
    type Error = UnknownOpcode;

    ghost try_from_gives = { λ byte opcode. opcode ≡ ok_or (opcode_read byte) (record { 0 = byte }) };

    fn try_from(byte: u8) -> Result<Opcode, UnknownOpcode> {
        match byte {
            0x00 => Ok(Opcode::TestUnitReady),
            0x03 => Ok(Opcode::RequestSense),
            0x12 => Ok(Opcode::Inquiry),
            0x1D => Ok(Opcode::SendDiagnostic),
            0x3B => Ok(Opcode::WriteBuffer),
            0x3C => Ok(Opcode::ReadBuffer),
            _ => Err(UnknownOpcode(byte)),
        }
    }
}

// The length of the CDB of a command whose first byte is this, if that is an opcode.
pub(crate) fn cdb_length(byte: u8) -> Option<usize>
    ensures { result ≡ cdb_length byte }
{
    match Opcode::try_from(byte) {
        Ok(Opcode::WriteBuffer | Opcode::ReadBuffer) => Some(10),
        Ok(_) => Some(6),
        Err(_) => None,
    }
}
