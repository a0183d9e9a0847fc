// Why a call is refused. A refused call alters nothing.
ghost use Rattle.std.specs.Prelude.{◌≡◌};
ghost use Rattle.answers.specs.Numbers.{refusal_number};

#[derive(Clone, Copy)]
pub enum Refusal {
    // the host is above 15
    Host,
    // the CDB has under 2 bytes, or another length than its opcode has
    Cdb,
    // the data of a WRITE BUFFER is shorter than its transfer length
    Data,
    // the reply buffer is too small
    Room,
    // the frame reads as nothing
    Frame,
    // there is not one insertion count for each slot
    Counts,
    // the shelf is unpowered
    Unpowered,
    // the backplane has every count zero
    NoSlots,
}

// The number of the refusal.
impl From<Refusal> for u8 {
    ghost from_gives = { λ refusal number. number ≡ refusal_number refusal };

    fn from(refusal: Refusal) -> u8 {
        match refusal {
            Refusal::Host => 1,
            Refusal::Cdb => 2,
            Refusal::Data => 3,
            Refusal::Room => 4,
            Refusal::Frame => 5,
            Refusal::Counts => 6,
            Refusal::Unpowered => 20,
            Refusal::NoSlots => 21,
        }
    }
}
