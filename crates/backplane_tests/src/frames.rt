// Frames of every length, every condition, and refusals that leave all as it was.
use backplane::configuration::Fittings;
use backplane::interface::Backplane;
use backplane::places::{Input, Output};
use enclosure::counts::PartCounts;
use packed::held::Packed;
use plain::held::Plain;

// 2 slots, 3 fans, 1 supply, 2 sensors and 1 thermostat: a plain frame has 2 + 3 + 1 + 2 + 3 bytes.
const COUNTS: PartCounts = PartCounts {
    fans: 3,
    supplies: 1,
    slots: 2,
    sensors: 2,
    thermostats: 1,
};

// A packed frame of those parts and its 3 flags; parts that are not fitted have what is no condition.
const FRAME: [u8; 33] = [
    0x02, 0, 0x31, 0xf4, 255, 255, 255, 255, 255, 255, 0xf2, 255, 255, 255, 90, 91, 255, 255, 255,
    255, 255, 255, 255, 255, 255, 255, 255, 255, 255, 0x05, 255, 255, 255,
];

// A shelf with those parts and an alarm.
const WITH_ALARM: Fittings<'static> = Fittings {
    counts: COUNTS,
    lock: false,
    alarm: true,
    ids: &[3, 4],
};

// The same without an alarm.
const BARE: Fittings<'static> = Fittings {
    counts: COUNTS,
    lock: false,
    alarm: false,
    ids: &[3, 4],
};

fn inputs<B: Backplane>(b: &B) -> [Option<u8>; 14] {
    [
        b.input(Input::Presence(0)),
        b.input(Input::Presence(1)),
        b.input(Input::Presence(2)),
        b.input(Input::Fan(0)),
        b.input(Input::Fan(1)),
        b.input(Input::Fan(2)),
        b.input(Input::Fan(3)),
        b.input(Input::Supply(0)),
        b.input(Input::Supply(1)),
        b.input(Input::Temperature(0)),
        b.input(Input::Temperature(1)),
        b.input(Input::OverTemperature(0)),
        b.input(Input::OverTemperature(2)),
        b.input(Input::OverTemperature(3)),
    ]
}

const ZERO: [Option<u8>; 14] = [
    Some(0),
    Some(0),
    None,
    Some(0),
    Some(0),
    Some(0),
    None,
    Some(0),
    None,
    Some(0),
    Some(0),
    Some(0),
    Some(0),
    None,
];

const READ: [Option<u8>; 14] = [
    Some(0),
    Some(1),
    None,
    Some(1),
    Some(3),
    Some(4),
    None,
    Some(2),
    None,
    Some(90),
    Some(91),
    Some(1),
    Some(1),
    None,
];

// Before the first sample all is 0; a refused frame leaves what was read.
#[test]
fn read_and_refused(rt: HostRuntime) {
    let mut p = Plain::new(WITH_ALARM);
    assert_eq!(rt; inputs(&p), ZERO);
    assert!(rt; p.sample(&[0, 1, 1, 3, 4, 2, 90, 91, 1, 0, 1]).is_ok());
    assert_eq!(rt; inputs(&p), READ);
    assert!(rt; p.set(Output::Lamp(1), 7).is_ok());
    assert!(rt; p.sample(&[0, 2, 1, 3, 4, 2, 90, 91, 1, 0, 1]).is_err());
    assert!(rt; p.sample(&[0, 1, 1, 3, 5, 2, 90, 91, 1, 0, 1]).is_err());
    assert!(rt; p.sample(&[0, 1, 1, 3, 4, 2, 90, 91, 1, 0, 2]).is_err());
    assert!(rt; p.set(Output::Lamp(1), 8).is_err());
    assert!(rt; p.set(Output::Lock, 0).is_err());
    assert_eq!(rt; inputs(&p), READ);
    assert_eq!(rt; p.output(Output::Lamp(1)), Some(7));
    assert_eq!(rt; p.output(Output::Lamp(0)), Some(0));
    assert_eq!(rt; p.output(Output::Lock), None);
    let mut image = [0xff; 19];
    let mut q = Packed::new(WITH_ALARM, &mut image);
    assert_eq!(rt; inputs(&q), ZERO);
    assert!(rt; q.sample(&FRAME).is_ok());
    assert_eq!(rt; inputs(&q), READ);
    assert!(rt; q.sample(&[0xff; 33]).is_err());
    assert!(rt; q.sample(&FRAME[0..32]).is_err());
    assert_eq!(rt; inputs(&q), READ);
    assert_eq!(rt; q.output(Output::Lamp(1)), Some(15));
    assert_eq!(rt; q.output(Output::Lamp(2)), None);
}

// Frames of every length up to 40.
#[test]
fn every_length(rt: HostRuntime) {
    let bytes = [0; 40];
    for n in 0..41usize {
        let mut p = Plain::new(BARE);
        assert_eq!(rt; p.sample(&bytes[0..n]).is_ok(), n == 11);
        let mut image = [0; 19];
        let mut q = Packed::new(BARE, &mut image);
        assert_eq!(rt; q.sample(&bytes[0..n]).is_ok(), n == 33);
    }
}

// A shelf with one slot, and some fans and supplies.
fn one_slot(fans: u8, supplies: u8) -> Fittings<'static> {
    Fittings {
        counts: PartCounts {
            fans,
            supplies,
            slots: 1,
            sensors: 0,
            thermostats: 0,
        },
        lock: false,
        alarm: false,
        ids: &[0],
    }
}

// Whether a packed frame with these two bytes of conditions, and ones in all others, reads as something.
fn reads(fittings: Fittings, fans: u8, supplies: u8) -> bool {
    let mut frame = [0xff; 33];
    frame[2] = fans;
    frame[10] = supplies;
    let mut image = [0; 19];
    let mut b = Packed::new(fittings, &mut image);
    b.sample(&frame).is_ok()
}

// Every byte of conditions, of parts that are fitted and of parts that are not.
#[test]
fn every_condition(rt: HostRuntime) {
    for byte in 0..=255u8 {
        let low = byte % 16 <= 4;
        let high = byte / 16 <= 4;
        assert!(rt; reads(one_slot(0, 0), byte, byte));
        assert_eq!(rt; reads(one_slot(1, 0), byte, 0xff), low);
        assert_eq!(rt; reads(one_slot(2, 0), byte, 0xff), low && high);
        assert_eq!(rt; reads(one_slot(0, 1), 0xff, byte), low);
        assert_eq!(rt; reads(one_slot(0, 2), 0xff, byte), low && high);
        let mut p = Plain::new(one_slot(1, 1));
        assert_eq!(rt; p.sample(&[1, byte, 0]).is_ok(), byte <= 4);
        assert_eq!(rt;
            p.input(Input::Fan(0)),
            Some(if byte <= 4 { byte } else { 0 })
        );
        assert_eq!(rt; p.sample(&[0, 0, byte]).is_ok(), byte <= 4);
        assert_eq!(rt; p.sample(&[byte, 0, 0]).is_ok(), byte <= 1);
    }
}
