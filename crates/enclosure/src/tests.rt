use crate::codes::{FanCode, SupplyCode};
use crate::counts::PartCounts;
use crate::record::SlotRecord;
use crate::record::rows::Row;
use crate::slots::{PhysicalState, SlotEvent};
use std::test::Fail;

// Each state's byte, and the byte after prepare, release, insertion and removal.
#[test]
fn events_move_the_state(rt: HostRuntime) -> Result<(), Fail> {
    for (from, prepare, release, insertion, removal) in [
        (2, 4, 2, 3, 2),
        (4, 4, 2, 5, 4),
        (3, 5, 3, 3, 2),
        (5, 5, 3, 5, 2),
    ] {
        let state = PhysicalState::try_from(from).map_err(|_| "no state")?;
        assert_eq!(rt; u8::from(state), from);
        assert_eq!(rt; u8::from(state.after(SlotEvent::Prepare)), prepare);
        assert_eq!(rt; u8::from(state.after(SlotEvent::Release)), release);
        assert_eq!(rt; u8::from(state.after(SlotEvent::Insertion)), insertion);
        assert_eq!(rt; u8::from(state.after(SlotEvent::Removal)), removal);
    }
    assert!(rt; PhysicalState::try_from(1).is_err());
    assert!(rt; PhysicalState::try_from(6).is_err());
    Ok(())
}

// Rows that are records and rows that are none.
#[test]
fn rows_are_checked(rt: HostRuntime) {
    for (flags, more, last, sound) in [
        (0xff, 1, 0, true),
        (0xfb, 3, 0, true),
        (4, 2, 0, false),
        (4, 0, 0, true),
        (0, 4, 0, false),
        (0, 0x80, 0, false),
        (0, 0, 1, false),
    ] {
        match SlotRecord::try_from(Row { flags, more, last }) {
            Ok(record) => {
                assert!(rt; sound);
                assert_eq!(rt; Row::from(record).flags, flags);
                assert_eq!(rt; Row::from(record).more, more);
                assert_eq!(rt; Row::from(record).last, 0);
            }
            Err(_) => assert!(rt; !sound),
        }
    }
}

// Every byte that is a code reads as the code with that number, and no other byte is one.
#[test]
fn codes_have_their_numbers(rt: HostRuntime) {
    let mut fans = 0u32;
    let mut supplies = 0u32;
    for byte in 0..=255u8 {
        if let Ok(code) = FanCode::try_from(byte) {
            assert_eq!(rt; u8::from(code), byte);
            assert!(rt; byte < 3 || byte == 0x80);
            fans = fans.saturating_add(1);
        }
        if let Ok(code) = SupplyCode::try_from(byte) {
            assert_eq!(rt; u8::from(code), byte);
            assert!(rt; byte / 16 < 3 && byte % 16 < 2 || byte == 0x80);
            supplies = supplies.saturating_add(1);
        }
    }
    assert_eq!(rt; fans, 4);
    assert_eq!(rt; supplies, 7);
}

// Counts at each limit, and one past it.
#[test]
fn counts_have_limits(rt: HostRuntime) {
    let rows = [
        (16, 8, 14, 15, 15, true),
        (0, 0, 1, 0, 0, true),
        (17, 0, 1, 0, 0, false),
        (0, 9, 1, 0, 0, false),
        (0, 0, 0, 0, 0, false),
        (0, 0, 15, 0, 0, false),
        (0, 0, 1, 16, 0, false),
        (0, 0, 1, 0, 16, false),
        (255, 255, 255, 255, 255, false),
    ];
    for (fans, supplies, slots, sensors, thermostats, fits) in rows {
        let counts = PartCounts {
            fans,
            supplies,
            slots,
            sensors,
            thermostats,
        };
        assert_eq!(rt; counts.in_range(), fits);
    }
}
