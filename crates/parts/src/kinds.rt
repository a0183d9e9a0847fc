// The kinds of part: fan, supply, slot, insertion count and plain byte.
ghost use Rattle.enclosure.specs.Codes.{fan_byte, fan_read, supply_byte, supply_read};
ghost use Rattle.std.specs.Prelude.{Some};
ghost use Rattle.parts.specs.Laid.{count_laid, count_reads, slot_laid, slot_reads};
ghost use Rattle.std.proofs.Common.{rules};
ghost use Rattle.parts.specs.SlotParts.{slot_back};

use crate::code::ByteCode;
use crate::part::{Part, WrongWidth, fill};
use enclosure::codes::{FanCode, SupplyCode};
use enclosure::record::SlotRecord;
use enclosure::record::rows::Row;
use enclosure::slots::PhysicalState;

// The impls for fan and supply are alike: one for every type with `Into<u8>` and `TryFrom<u8>` could not prove the laws, and with those as supertraits each would state a law in place of each function, and a plain byte would need two impls more.
// A fan is its code.
impl ByteCode for FanCode {
    ghost code = { fan_byte };

    ghost coded = { fan_read };

    ghost returns = { Prim.search rules };

    ghost alone = { Prim.search rules };

    fn code_of(fan: FanCode) -> u8 {
        u8::from(fan)
    }

    fn part_of(byte: u8) -> Option<FanCode> {
        FanCode::try_from(byte).ok()
    }
}

// A supply is its code.
impl ByteCode for SupplyCode {
    ghost code = { supply_byte };

    ghost coded = { supply_read };

    ghost returns = { Prim.search rules };

    ghost alone = { Prim.search rules };

    fn code_of(supply: SupplyCode) -> u8 {
        u8::from(supply)
    }

    fn part_of(byte: u8) -> Option<SupplyCode> {
        SupplyCode::try_from(byte).ok()
    }
}

// A plain byte: a SCSI ID or a temperature.
#[derive(Clone, Copy)]
pub struct PlainByte(pub u8);

// A plain byte is itself, and any byte is one.
impl ByteCode for PlainByte {
    ghost code = { λ x. x.0 };

    ghost coded = { λ b. Some (record { 0 = b }) };

    ghost returns = { Prim.search rules };

    ghost alone = { Prim.search rules };

    fn code_of(plain: PlainByte) -> u8 {
        plain.0
    }

    fn part_of(byte: u8) -> Option<PlainByte> {
        Some(PlainByte(byte))
    }
}

// A slot as the slot page shows it: its record, and its physical state as the fourth byte.
#[derive(Clone, Copy)]
pub struct Slot {
    pub record: SlotRecord,
    pub state: PhysicalState,
}

impl Part for Slot {
    const WIDTH: usize = 4;

    ghost WIDTH = { 4 };

    ghost laid = { slot_laid };

    ghost reads = { slot_reads };

    ghost some = { Prim.search rules };

    ghost slim = { Prim.search rules };

    ghost back = { slot_back };

    ghost only = { Prim.search rules };

    ghost whole = { Prim.search rules };

    fn lay(&self, out: &mut [u8]) -> Result<(), WrongWidth> {
        let Row { flags, more, last } = Row::from(self.record);
        fill(out, &[flags, more, last, u8::from(self.state)])
    }

    fn read(bytes: &[u8]) -> Option<Slot> {
        let [flags, more, last, fourth] = bytes else {
            return None;
        };
        let record = SlotRecord::try_from(Row {
            flags: *flags,
            more: *more,
            last: *last,
        })
        .ok()?;
        let state = PhysicalState::try_from(*fourth).ok()?;
        Some(Slot { record, state })
    }
}

// How often a drive was put into a slot: two bytes, the high one first.
#[derive(Clone, Copy)]
pub struct InsertionCount(pub u16);

impl Part for InsertionCount {
    const WIDTH: usize = 2;

    ghost WIDTH = { 2 };

    ghost laid = { count_laid };

    ghost reads = { count_reads };

    ghost some = { Prim.search rules };

    ghost slim = { Prim.search rules };

    ghost back = { Prim.search rules };

    ghost only = { Prim.search rules };

    ghost whole = { Prim.search rules };

    fn lay(&self, out: &mut [u8]) -> Result<(), WrongWidth> {
        fill(out, &self.0.to_be_bytes())
    }

    fn read(bytes: &[u8]) -> Option<InsertionCount> {
        match bytes {
            [high, low] => Some(InsertionCount(u16::from_be_bytes([*high, *low]))),
            _ => None,
        }
    }
}
