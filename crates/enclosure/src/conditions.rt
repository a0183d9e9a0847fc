// How a part fares, and the code that the status page shows for it.
ghost use Rattle.std.specs.Prelude.{◌≡◌};
ghost use Rattle.std.specs.Option.{ok_or};
ghost use Rattle.enclosure.specs.Conditions.{condition_number, condition_numbered, fan_of, supply_of};

use crate::codes::{FanCode, SupplyCode};
use crate::unknown::UnknownByte;

#[derive(Clone, Copy)]
pub enum Condition {
    Works,
    Broken,
    Absent,
    // Present, and nothing more is known.
    PresentOnly,
    Unknown,
}

// The number of the condition.
impl From<Condition> for u8 {
    ghost from_gives = { λ condition number. number ≡ condition_number condition };

    fn from(condition: Condition) -> u8 {
        match condition {
            Condition::Works => 0,
            Condition::Broken => 1,
            Condition::Absent => 2,
            Condition::PresentOnly => 3,
            Condition::Unknown => 4,
        }
    }
}

// The condition that a number names, if it names one.
impl TryFrom<u8> for Condition {
    type Error = UnknownByte;

    ghost try_from_gives = { λ number condition. condition ≡ ok_or (condition_numbered number) (record { 0 = number }) };

    fn try_from(number: u8) -> Result<Condition, UnknownByte> {
        match number {
            0 => Ok(Condition::Works),
            1 => Ok(Condition::Broken),
            2 => Ok(Condition::Absent),
            3 => Ok(Condition::PresentOnly),
            4 => Ok(Condition::Unknown),
            _ => Err(UnknownByte(number)),
        }
    }
}

// The code of a fan in a condition.
impl From<Condition> for FanCode {
    ghost from_gives = { λ condition code. code ≡ fan_of condition };

    fn from(condition: Condition) -> FanCode {
        match condition {
            Condition::Works => FanCode::Works,
            Condition::Broken => FanCode::Broken,
            Condition::Absent => FanCode::Absent,
            Condition::PresentOnly | Condition::Unknown => FanCode::Unknown,
        }
    }
}

impl SupplyCode {
    // The code of a supply in a condition, switched on or off. It has two arguments, and so is no `From`.
    pub fn of(condition: Condition, on: bool) -> SupplyCode
        ensures { result ≡ supply_of condition on }
    {
        match (condition, on) {
            (Condition::Works, true) => SupplyCode::WorksOn,
            (Condition::Works, false) => SupplyCode::WorksOff,
            (Condition::Broken, true) => SupplyCode::BrokenOn,
            (Condition::Broken, false) => SupplyCode::BrokenOff,
            (Condition::Absent, _) => SupplyCode::Absent,
            (Condition::PresentOnly, _) => SupplyCode::PresentOnly,
            (Condition::Unknown, _) => SupplyCode::Unknown,
        }
    }
}
