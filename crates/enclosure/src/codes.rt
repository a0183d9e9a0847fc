// What the status page says of a fan and of a power supply.
ghost use Rattle.std.specs.Prelude.{◌≡◌};
ghost use Rattle.std.specs.Option.{ok_or};
ghost use Rattle.enclosure.specs.Codes.{fan_byte, fan_read, supply_byte, supply_read};

use crate::unknown::UnknownByte;

#[derive(Clone, Copy)]
pub enum FanCode {
    Works,
    Broken,
    Absent,
    Unknown,
}

// The number of the code.
impl From<FanCode> for u8 {
    ghost from_gives = { λ code byte. byte ≡ fan_byte code };

    fn from(code: FanCode) -> u8 {
        match code {
            FanCode::Works => 0x00,
            FanCode::Broken => 0x01,
            FanCode::Absent => 0x02,
            FanCode::Unknown => 0x80,
        }
    }
}

// The code that a byte is, if it is one.
impl TryFrom<u8> for FanCode {
    type Error = UnknownByte;

    ghost try_from_gives = { λ byte code. code ≡ ok_or (fan_read byte) (record { 0 = byte }) };

    fn try_from(byte: u8) -> Result<FanCode, UnknownByte> {
        match byte {
            0x00 => Ok(FanCode::Works),
            0x01 => Ok(FanCode::Broken),
            0x02 => Ok(FanCode::Absent),
            0x80 => Ok(FanCode::Unknown),
            _ => Err(UnknownByte(byte)),
        }
    }
}

#[derive(Clone, Copy)]
pub enum SupplyCode {
    WorksOn,
    WorksOff,
    BrokenOn,
    BrokenOff,
    Absent,
    PresentOnly,
    Unknown,
}

// The number of the code.
impl From<SupplyCode> for u8 {
    ghost from_gives = { λ code byte. byte ≡ supply_byte code };

    fn from(code: SupplyCode) -> u8 {
        match code {
            SupplyCode::WorksOn => 0x00,
            SupplyCode::WorksOff => 0x01,
            SupplyCode::BrokenOn => 0x10,
            SupplyCode::BrokenOff => 0x11,
            SupplyCode::Absent => 0x20,
            SupplyCode::PresentOnly => 0x21,
            SupplyCode::Unknown => 0x80,
        }
    }
}

// The code that a byte is, if it is one.
impl TryFrom<u8> for SupplyCode {
    type Error = UnknownByte;

    ghost try_from_gives = { λ byte code. code ≡ ok_or (supply_read byte) (record { 0 = byte }) };

    fn try_from(byte: u8) -> Result<SupplyCode, UnknownByte> {
        match byte {
            0x00 => Ok(SupplyCode::WorksOn),
            0x01 => Ok(SupplyCode::WorksOff),
            0x10 => Ok(SupplyCode::BrokenOn),
            0x11 => Ok(SupplyCode::BrokenOff),
            0x20 => Ok(SupplyCode::Absent),
            0x21 => Ok(SupplyCode::PresentOnly),
            0x80 => Ok(SupplyCode::Unknown),
            _ => Err(UnknownByte(byte)),
        }
    }
}
