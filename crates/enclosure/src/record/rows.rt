// Records and the plain rows of three bytes that they are kept in.
ghost use Rattle.std.specs.Prelude.{◌≡◌};
ghost use Rattle.std.specs.Option.{ok_or};
ghost use Rattle.enclosure.specs.Records.{record_of, row_fault, row_of};

use crate::record::SlotRecord;

// Three bytes of a slot, whatever they are.
#[derive(Clone, Copy)]
pub struct Row {
    pub flags: u8,
    pub more: u8,
    pub last: u8,
}

// Why a row is no record: the first that applies.
#[derive(Clone, Copy)]
pub enum NoRecord {
    // Byte 2 is not 0.
    Last,
    // Byte 1 has a reserved bit.
    Reserved,
    // Both Device Rebuilding and Rebuild Stopped are set.
    BothRebuild,
}

// The record that a row is, if it is one: no reserved bit, and not both rebuild flags.
impl TryFrom<Row> for SlotRecord {
    type Error = NoRecord;

    ghost try_from_gives = { λ row kept. kept ≡ ok_or (record_of row) (row_fault row) };

    fn try_from(row: Row) -> Result<SlotRecord, NoRecord> {
        let Row { flags, more, last } = row;
        if last != 0 {
            return Err(NoRecord::Last);
        }
        if more >= 4 {
            return Err(NoRecord::Reserved);
        }
        if (flags >> 2) % 2 == 1 && (more >> 1) % 2 == 1 {
            return Err(NoRecord::BothRebuild);
        }
        Ok(SlotRecord { flags, more })
    }
}

// The row of a record.
impl From<SlotRecord> for Row {
    ghost from_gives = { λ kept row. row ≡ row_of kept };

    fn from(record: SlotRecord) -> Row {
        Row {
            flags: record.flags,
            more: record.more,
            last: 0,
        }
    }
}
