// Sense: why a command got CHECK CONDITION. It has three numbers, each with a method of its own, since a `From` gives only one.
ghost use Rattle.std.specs.Prelude.{◌≡◌};
ghost use Rattle.answers.specs.Numbers.{sense_code, sense_key, sense_qualifier};

// `Nothing` is one of them and no `None` of an `Option`: its three numbers are 0, and REQUEST SENSE shows it as it shows every other sense.
#[derive(Clone, Copy)]
pub enum Sense {
    // there is nothing to tell
    Nothing,
    // no such command
    Opcode,
    // the mode is not 1, or the buffer ID is no page
    Field,
    // a logical unit other than 0
    LogicalUnit,
    // the data of a WRITE BUFFER is no order of this shelf
    Order,
    // the shelf was powered on or reset
    Attention,
}

impl Sense {
    // The sense key.
    pub fn key(self) -> u8
        ensures { result ≡ sense_key self }
    {
        match self {
            Sense::Nothing => 0x00,
            Sense::Opcode | Sense::Field | Sense::LogicalUnit | Sense::Order => 0x05,
            Sense::Attention => 0x06,
        }
    }

    // The additional sense code.
    pub fn code(self) -> u8
        ensures { result ≡ sense_code self }
    {
        match self {
            Sense::Nothing => 0x00,
            Sense::Opcode => 0x20,
            Sense::Field => 0x24,
            Sense::LogicalUnit => 0x25,
            Sense::Order => 0x26,
            Sense::Attention => 0x29,
        }
    }

    // Its qualifier.
    pub fn qualifier(self) -> u8
        ensures { result ≡ sense_qualifier self }
    {
        match self {
            Sense::Order => 0x02,
            _ => 0x00,
        }
    }
}
