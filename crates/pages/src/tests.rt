use crate::configuration::lay_configuration;
use crate::flags::lay_global_flags;
use crate::heat::heat_bytes;
use crate::slots::{lay_insertions, lay_slots};
use crate::status::{StatusParts, lay_status};
use enclosure::codes::{FanCode, SupplyCode};
use enclosure::conditions::Condition;
use enclosure::counts::PartCounts;
use enclosure::record::SlotRecord;
use enclosure::record::rows::Row;
use enclosure::slots::PhysicalState;
use parts::kinds::{InsertionCount, PlainByte, Slot};
use std::process::Abort;
use std::test::Fail;

// A buffer of EEh holds the page at its front, and the rest of it is EEh still.
fn holds(rt: &impl Abort, buffer: &[u8], page: &[u8]) {
    for (k, byte) in buffer.iter().enumerate() {
        assert_eq!(rt; *byte, page.get(k).copied().unwrap_or(0xee));
    }
}

// 2 fans, 2 supplies, 4 slots and 1 sensor: 14 bytes, where they fit.
#[test]
fn status_of_a_small_shelf(rt: HostRuntime) {
    let parts = StatusParts {
        fans: &[
            FanCode::from(Condition::Works),
            FanCode::from(Condition::PresentOnly),
        ],
        supplies: &[
            SupplyCode::of(Condition::Broken, false),
            SupplyCode::of(Condition::Absent, true),
        ],
        ids: &[PlainByte(3), PlainByte(4), PlainByte(5), PlainByte(6)],
        lock: Some(true),
        alarm: Some(true),
        temperatures: &[PlainByte(0x52)],
        over_temperature: &[true],
    };
    let page = [
        0x00, 0x80, 0x11, 0x20, 3, 4, 5, 6, 0x00, 0x01, 0x52, 0x80, 0x01, 0x00,
    ];
    let mut buffer = [0xee; 16];
    assert_eq!(rt; lay_status(parts, &mut buffer[0..13]), None);
    holds(&rt, &buffer, &[]);
    assert_eq!(rt; lay_status(parts, &mut buffer[0..14]), Some(14));
    holds(&rt, &buffer, &page);
    let mut longer = [0xee; 16];
    assert_eq!(rt; lay_status(parts, &mut longer), Some(14));
    holds(&rt, &longer, &page);
}

// A lock that is not set and one that is not fitted show 01h; an alarm that is silent and one that is not fitted show 00h.
#[test]
fn door_and_speaker(rt: HostRuntime) {
    for (lock, alarm, door, speaker) in [
        (Some(true), Some(false), 0, 0),
        (Some(false), Some(true), 1, 1),
        (None, None, 1, 0),
    ] {
        let parts = StatusParts {
            fans: &[],
            supplies: &[],
            ids: &[],
            lock,
            alarm,
            temperatures: &[],
            over_temperature: &[],
        };
        let mut buffer = [0xee; 5];
        assert_eq!(rt; lay_status(parts, &mut buffer), Some(5));
        holds(&rt, &buffer, &[door, speaker, 0, 0, 0]);
    }
}

// One flag at a time of 30: its bit, and bit 7 of the first byte for the first fifteen.
#[test]
fn heat_of_one_flag(rt: HostRuntime) {
    for (flag, first, second) in [
        (0, 0x80, 0x01),
        (7, 0x80, 0x80),
        (8, 0x81, 0x00),
        (14, 0xc0, 0x00),
        (15, 0x00, 0x00),
        (29, 0x00, 0x00),
    ] {
        let mut flags = [false; 30];
        if let Some(set) = flags.get_mut(flag) {
            *set = true;
        }
        assert_eq!(rt; heat_bytes(&flags), [first, second]);
    }
    assert_eq!(rt; heat_bytes(&[true; 30]), [0xff, 0xff]);
    assert_eq!(rt; heat_bytes(&[]), [0, 0]);
}

// Four slots make 17 bytes, and their insertion counts 8.
#[test]
fn slots_and_insertions(rt: HostRuntime) -> Result<(), Fail> {
    let row = Row {
        flags: 0xfb,
        more: 3,
        last: 0,
    };
    let Ok(record) = SlotRecord::try_from(row) else {
        return Err(Fail::new("no record"));
    };
    let empty = Slot {
        record,
        state: PhysicalState::EmptyReady,
    };
    let inserted = Slot {
        record,
        state: PhysicalState::InsertedPrepared,
    };
    let slots = [empty, inserted, empty, inserted];
    let page = [
        0xfb, 3, 0, 2, 0xfb, 3, 0, 5, 0xfb, 3, 0, 2, 0xfb, 3, 0, 5, 0,
    ];
    let mut buffer = [0xee; 18];
    assert_eq!(rt; lay_slots(&slots, &mut buffer[0..16]), None);
    holds(&rt, &buffer, &[]);
    assert_eq!(rt; lay_slots(&slots, &mut buffer), Some(17));
    holds(&rt, &buffer, &page);
    let counts = [
        InsertionCount(1),
        InsertionCount(0x100),
        InsertionCount(0xffff),
        InsertionCount(0),
    ];
    let mut buffer = [0xee; 9];
    assert_eq!(rt; lay_insertions(&counts, &mut buffer[0..7]), None);
    holds(&rt, &buffer, &[]);
    assert_eq!(rt; lay_insertions(&counts, &mut buffer), Some(8));
    holds(&rt, &buffer, &[0, 1, 1, 0, 0xff, 0xff, 0, 0]);
    Ok(())
}

// The configuration page and the page of global flags end in zeros.
#[test]
fn pages_of_plain_bytes(rt: HostRuntime) {
    let counts = PartCounts {
        fans: 2,
        supplies: 3,
        slots: 4,
        sensors: 5,
        thermostats: 6,
    };
    let mut page = [0; 64];
    for (byte, field) in page.iter_mut().zip([2, 3, 4, 1, 5, 0, 6].iter()) {
        *byte = *field;
    }
    let mut buffer = [0xee; 65];
    assert_eq!(rt;
        lay_configuration(counts, true, false, &mut buffer[0..63]),
        None
    );
    holds(&rt, &buffer, &[]);
    assert_eq!(rt;
        lay_configuration(counts, true, false, &mut buffer),
        Some(64)
    );
    holds(&rt, &buffer, &page);
    let mut buffer = [0xee; 17];
    assert_eq!(rt; lay_global_flags([1, 2, 0xff], &mut buffer[0..15]), None);
    holds(&rt, &buffer, &[]);
    assert_eq!(rt; lay_global_flags([1, 2, 0xff], &mut buffer), Some(16));
    holds(
        &rt,
        &buffer,
        &[1, 2, 0xff, 0, 0, 0, 0, 0, 0, 0, 0, 0, 0, 0, 0, 0],
    );
}
