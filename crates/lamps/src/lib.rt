// The lamp of a slot.
#![tactic(auto)]

ghost use Rattle.std.specs.Prelude.{◌≡◌};
ghost use Rattle.lamps.specs.Lamps.{lamp_number, lamp_of};

use enclosure::record::rows::Row;

// What a lamp shows.
#[derive(Clone, Copy)]
pub enum Lamp {
    Off,
    NoError,
    Faulty,
    Rebuilding,
    Failed,
    Spare,
    Predicted,
    Identify,
}

impl Lamp {
    // The lamp of a slot with this record: the first that applies. It has two arguments, and so is no `From`.
    pub fn of(record: Row, identify: bool) -> Lamp
        ensures { result ≡ lamp_of «record» identify }
    {
        let Row { flags, more, .. } = record;
        if identify {
            Lamp::Identify
        } else if (flags >> 1) % 2 == 1 {
            Lamp::Faulty
        } else if (flags >> 3) % 2 == 1 || (more >> 1) % 2 == 1 {
            Lamp::Failed
        } else if (flags >> 2) % 2 == 1 || (flags >> 4) % 2 == 1 {
            Lamp::Rebuilding
        } else if (flags >> 6) % 2 == 1 {
            Lamp::Predicted
        } else if (flags >> 5) % 2 == 1 || more % 2 == 1 {
            Lamp::Spare
        } else if flags % 2 == 1 {
            Lamp::NoError
        } else {
            Lamp::Off
        }
    }
}

// The number that a lamp is set to.
impl From<Lamp> for u8 {
    ghost from_gives = { λ lamp number. number ≡ lamp_number lamp };

    fn from(lamp: Lamp) -> u8 {
        match lamp {
            Lamp::Off => 0,
            Lamp::NoError => 1,
            Lamp::Faulty => 2,
            Lamp::Rebuilding => 3,
            Lamp::Failed => 4,
            Lamp::Spare => 5,
            Lamp::Predicted => 6,
            Lamp::Identify => 7,
        }
    }
}
