use crate::fault::Run;
use crate::layers::read_part;

// A shelf of 2 fans, 2 supplies, 4 slots and 1 sensor.
const COUNTS: [u8; 7] = [2, 2, 4, 0, 1, 0, 0];

const STATUS: [u8; 14] = [0, 0x80, 0x11, 0x20, 3, 4, 5, 6, 1, 0, 0x52, 0, 0, 0];

const SLOTS: [u8; 17] = [0x80, 0, 0, 5, 1, 1, 0, 4, 0xfb, 3, 0, 3, 0, 0, 0, 2, 0];

const INSERTED: [u8; 8] = [0, 1, 1, 0, 0xff, 0xff, 0, 0];

fn config(counts: [u8; 7]) -> [u8; 64] {
    let mut page = [0; 64];
    for (byte, count) in page.iter_mut().zip(counts.iter()) {
        *byte = *count;
    }
    page
}

// 0 with the part's place and its last byte, or the fault's number.
fn outcome(config: &[u8], page: &[u8], run: Run, number: usize) -> (u32, usize, u8) {
    match read_part(config, page, run, number) {
        Ok(found) => (0, found.place, found.bytes.last().copied().unwrap_or(0)),
        Err(fault) => (u32::from(fault), 0, 0),
    }
}

// The first and the last part of each run, and the number past it.
#[test]
fn first_last_and_past(rt: HostRuntime) {
    let config = config(COUNTS);
    for (run, last, place, byte) in [
        (0, 1, 1, 0x80),
        (1, 1, 3, 0x20),
        (2, 3, 7, 6),
        (3, 0, 10, 0x52),
    ] {
        assert_eq!(rt;
            outcome(&config, &STATUS, Run::from(run), last),
            (0, place, byte)
        );
        assert_eq!(rt;
            outcome(&config, &STATUS, Run::from(run), last.saturating_add(1)),
            (9, 0, 0)
        );
    }
    assert_eq!(rt; outcome(&config, &STATUS, Run::Fans, 0), (0, 0, 0));
    assert_eq!(rt; outcome(&config, &SLOTS, Run::Slots, 0), (0, 0, 5));
    assert_eq!(rt; outcome(&config, &SLOTS, Run::Slots, 3), (0, 12, 2));
    assert_eq!(rt; outcome(&config, &SLOTS, Run::Slots, 4), (9, 0, 0));
    assert_eq!(rt; outcome(&config, &INSERTED, Run::Counts, 2), (0, 4, 0xff));
    assert_eq!(rt;
        outcome(&config, &INSERTED, Run::Counts, usize::MAX),
        (9, 0, 0)
    );
}

// A run is read from every page that holds it whole, and from no page that is cut before its end.
#[test]
fn pages_cut_at_every_length(rt: HostRuntime) {
    let config = config(COUNTS);
    for (run, end) in [(0, 2), (1, 4), (2, 8), (3, 11)] {
        for len in 0..15 {
            let page = STATUS.get(0..len).unwrap_or(&[]);
            let fault = if page.len() < end { 8 } else { 0 };
            assert_eq!(rt; outcome(&config, page, Run::from(run), 0).0, fault);
        }
    }
    for len in 0..18 {
        let page = SLOTS.get(0..len).unwrap_or(&[]);
        assert_eq!(rt;
            outcome(&config, page, Run::Slots, 0).0,
            if page.len() < 16 { 8 } else { 0 }
        );
        assert_eq!(rt;
            outcome(&config, page, Run::Counts, 0).0,
            if page.len() < 8 { 8 } else { 0 }
        );
    }
}

// Counts at each limit and past it, and a page one byte short.
#[test]
fn configurations_at_their_limits(rt: HostRuntime) {
    let rows = [
        ([16, 8, 14, 0, 15, 0, 15], 9),
        ([0, 0, 1, 0, 0, 0, 0], 9),
        ([17, 0, 1, 0, 0, 0, 0], 7),
        ([0, 9, 1, 0, 0, 0, 0], 7),
        ([0, 0, 0, 0, 0, 0, 0], 7),
        ([0, 0, 15, 0, 0, 0, 0], 7),
        ([0, 0, 1, 0, 16, 0, 0], 7),
        ([0, 0, 1, 0, 0, 0, 16], 7),
        ([0, 0, 1, 0xff, 0, 0xff, 0], 9),
    ];
    for (counts, fault) in rows {
        assert_eq!(rt; outcome(&config(counts), &[], Run::Unknown, 0).0, fault);
    }
    let whole = config(COUNTS);
    assert_eq!(rt; outcome(&whole[0..63], &STATUS, Run::Fans, 0).0, 7);
    assert_eq!(rt; outcome(&whole, &STATUS, Run::from(6), 0).0, 9);
}

// Faults come in their order, a run of no parts has an end too, and bytes that are no part are refused.
#[test]
fn faults_in_their_order(rt: HostRuntime) {
    let config = config([1, 0, 1, 0, 0, 0, 0]);
    assert_eq!(rt; outcome(&config, &[3], Run::Fans, 0).0, 10);
    assert_eq!(rt; outcome(&config, &[3], Run::Fans, 1).0, 9);
    assert_eq!(rt; outcome(&config, &[], Run::Fans, 1).0, 8);
    assert_eq!(rt; outcome(&config, &[], Run::Supplies, 0).0, 8);
    assert_eq!(rt; outcome(&config, &[0], Run::Supplies, 0).0, 9);
    for (slot, fault) in [
        ([0, 0, 0, 2], 0),
        ([4, 2, 0, 2], 10),
        ([0, 4, 0, 2], 10),
        ([0, 0, 1, 2], 10),
        ([0, 0, 0, 6], 10),
    ] {
        assert_eq!(rt; outcome(&config, &slot, Run::Slots, 0).0, fault);
    }
}
