// Images of ones and of mixed bits, and what is written over them.
use backplane::configuration::Fittings;
use backplane::interface::Backplane;
use backplane::places::Output;
use enclosure::counts::PartCounts;
use packed::held::Packed;
use startup_packed::switch_on_packed;

// A shelf with every part.
const FULL: Fittings<'static> = Fittings {
    counts: PartCounts {
        fans: 16,
        supplies: 8,
        slots: 14,
        sensors: 15,
        thermostats: 15,
    },
    lock: true,
    alarm: true,
    ids: &[0, 1, 2, 3, 4, 5, 6, 7, 8, 9, 10, 11, 12, 15],
};

// A shelf with few parts, without lock and alarm.
const FEW: Fittings<'static> = Fittings {
    counts: PartCounts {
        fans: 3,
        supplies: 2,
        slots: 1,
        sensors: 0,
        thermostats: 0,
    },
    lock: false,
    alarm: false,
    ids: &[7],
};

// The same with a lock.
const LOCKED: Fittings<'static> = Fittings { lock: true, ..FEW };

const MIXED: u8 = 0xa6;

// Whether byte `at` is `byte` and all others are `rest`.
fn alone(image: &[u8], at: usize, byte: u8, rest: u8) -> bool {
    image
        .iter()
        .enumerate()
        .all(|(i, b)| *b == if i == at { byte } else { rest })
}

// Sets one output of a shelf with every part, and says whether it was set.
fn set_full(image: &mut [u8], at: Output, number: u8) -> bool {
    let mut b = Packed::new(FULL, image);
    b.set(at, number).is_ok()
}

// The same of a shelf with few parts, without lock and alarm.
fn set_few(image: &mut [u8], at: Output, number: u8) -> bool {
    let mut b = Packed::new(FEW, image);
    b.write(at, number).is_ok()
}

// Each kind of output over images of ones and of mixed bits, of 19 bytes and longer: one byte alone is altered.
#[test]
fn one_byte_alone(rt: HostRuntime) {
    for (output, number, at, of_ones, of_mixed) in [
        (Output::Lamp(0), 5, 0, 0xf5, 0xa5),
        (Output::Lamp(1), 0, 0, 0x0f, 0x06),
        (Output::Lamp(13), 2, 6, 0x2f, 0x26),
        (Output::Connection(0), 0, 7, 0xfe, 0xa6),
        (Output::Connection(3), 1, 7, 0xff, 0xae),
        (Output::Connection(13), 0, 8, 0xdf, 0x86),
        (Output::Speed(0), 4, 9, 0xf4, 0xa4),
        (Output::Speed(15), 0, 16, 0x0f, 0x06),
        (Output::Supply(0), 1, 17, 0xff, 0xa7),
        (Output::Supply(7), 0, 17, 0x7f, 0x26),
        (Output::Alarm, 0, 18, 0xfe, 0xa6),
        (Output::Alarm, 1, 18, 0xff, 0xa7),
        (Output::Lock, 0, 18, 0xfd, 0xa4),
    ] {
        let mut ones = [0xff; 24];
        assert!(rt; set_full(&mut ones, output, number));
        assert!(rt; alone(&ones, at, of_ones, 0xff));
        let mut mixed = [MIXED; 19];
        assert!(rt; set_full(&mut mixed, output, number));
        assert!(rt; alone(&mixed, at, of_mixed, MIXED));
    }
}

// Every number at each kind of output: what is out of range is refused, and leaves the image.
#[test]
fn every_number(rt: HostRuntime) {
    for number in 0..=255u8 {
        for (output, limit) in [
            (Output::Lamp(2), 8),
            (Output::Connection(2), 2),
            (Output::Speed(2), 5),
            (Output::Supply(2), 2),
            (Output::Alarm, 2),
            (Output::Lock, 2),
        ] {
            let mut image = [MIXED; 20];
            assert_eq!(rt; set_full(&mut image, output, number), number < limit);
            assert!(rt; number < limit || alone(&image, 0, MIXED, MIXED));
        }
    }
}

// Parts that are not fitted are refused, and leave the image.
#[test]
fn not_fitted(rt: HostRuntime) {
    for output in [
        Output::Lamp(1),
        Output::Connection(1),
        Output::Speed(3),
        Output::Supply(2),
        Output::Alarm,
        Output::Lock,
        Output::Speed(usize::MAX),
    ] {
        let mut image = [0xff; 21];
        assert!(rt; !set_few(&mut image, output, 0));
        assert!(rt; alone(&image, 0, 0xff, 0xff));
    }
}

// How many slots a shelf has over an image.
fn slots_over(image: &mut [u8]) -> u8 {
    let b = Packed::new(FULL, image);
    b.configuration().counts.slots
}

// An image under 19 bytes: nothing is fitted, and nothing written; making a backplane writes nothing in any.
#[test]
fn too_short(rt: HostRuntime) {
    let mut short = [MIXED; 18];
    assert_eq!(rt; slots_over(&mut short), 0);
    assert!(rt; !set_full(&mut short, Output::Lamp(0), 1));
    assert!(rt; alone(&short, 0, MIXED, MIXED));
    assert_eq!(rt; slots_over(&mut []), 0);
    let mut whole = [MIXED; 19];
    assert_eq!(rt; slots_over(&mut whole), 14);
    assert!(rt; alone(&whole, 0, MIXED, MIXED));
    assert!(rt; set_full(&mut whole, Output::Lamp(0), 1));
    assert!(rt; alone(&whole, 0, 0xa1, MIXED));
}

// Switching on over ones and over mixed bits: every byte.
#[test]
fn switched_on(rt: HostRuntime) {
    let mut image = [0xff; 24];
    assert!(rt; switch_on_packed(FULL, &mut image, &[0; 33]).is_ok());
    assert_eq!(rt;
        image,
        [
            255, 255, 255, 255, 255, 255, 255, 255, 255, 0x44, 0x44, 0x44, 0x44, 0x44, 0x44, 0x44,
            0x44, 255, 0xfc, 255, 255, 255, 255, 255,
        ]
    );
    let mut few = [MIXED; 24];
    assert!(rt; switch_on_packed(LOCKED, &mut few, &[0; 33]).is_ok());
    assert_eq!(rt;
        few,
        [
            166, 166, 166, 166, 166, 166, 166, 166, 166, 0x44, 0xa4, 166, 166, 166, 166, 166, 166,
            0xa7, 0xa4, 166, 166, 166, 166, 166,
        ]
    );
    let mut dark = [MIXED; 24];
    assert!(rt; switch_on_packed(FULL, &mut dark, &[0; 32]).is_err());
    assert!(rt; alone(&dark, 0, MIXED, MIXED));
    assert!(rt; switch_on_packed(FULL, &mut dark, &[0xff; 33]).is_err());
    assert!(rt; alone(&dark, 0, MIXED, MIXED));
}
