use crate::shelves::Shelves;
use gathered::LineBuffer;
use script::lines::{answer, respond};
use script::session::Session;
use std::alloc::Global;
use std::process::Abort;
use std::test::Fail;

// Line 7 is this, and this is said to it.
fn says(
    rt: &impl Abort,
    heap: Global,
    shelves: &mut Shelves,
    line: &str,
    said: &str,
) -> Result<(), Fail> {
    match respond(shelves, heap, 7, line.as_bytes())?.text() {
        Some(text) => {
            assert_eq!(rt; text, said);
            Ok(())
        },
        None => Err(Fail::new("nothing was said")),
    }
}

// Says the line in front of each ` => ` of a table, with the answer that stands behind it.
fn says_all(rt: &impl Abort, heap: Global, shelves: &mut Shelves, table: &str) -> Result<(), Fail> {
    for row in table.lines() {
        match row.split_once(" => ") {
            Some((line, said)) => says(rt, heap, shelves, line, said)?,
            None => return Err(Fail::new("a row without an answer")),
        }
    }
    Ok(())
}

// Lines that are no calls, and calls for parts, and what is said to them.
const PARTS: &str = "\
part => 7 unreadable: expected `config`, found the end of the line\n\
part page - config - => 7 unreadable: expected `config`, found `page`\n\
part config 0 page - => 7 unreadable: expected bytes: an even number of hexadecimal digits, or `-`, found `0`\n\
part config 0g page - => 7 unreadable: expected bytes: an even number of hexadecimal digits, or `-`, found `0g`\n\
part config - page => 7 unreadable: expected bytes: an even number of hexadecimal digits, or `-`, found the end of the line\n\
part config - page - run => 7 unreadable: expected a run: `fans`, `supplies`, `ids`, `temperatures`, `slots`, `counts` or a number up to 255, found the end of the line\n\
part config - page - run Fans => 7 unreadable: expected a run: `fans`, `supplies`, `ids`, `temperatures`, `slots`, `counts` or a number up to 255, found `Fans`\n\
part config - page - run 256 number 0 => 7 unreadable: expected a run: `fans`, `supplies`, `ids`, `temperatures`, `slots`, `counts` or a number up to 255, found `256`\n\
part config - page - run 255 number -1 => 7 unreadable: expected a number up to 4294967295, found `-1`\n\
part config - page - run fans number 4294967296 => 7 unreadable: expected a number up to 4294967295, found `4294967296`\n\
part config - page - run fans number 0 0 => 7 unreadable: expected the end of the line, found `0`\n\
Part config - page - run fans number 0 => 7 unreadable: expected a call: `shelf`, `outputs` or `part`, found `Part`\n\
pa\u{e9}rt \\ => 7 unreadable: expected a call: `shelf`, `outputs` or `part`, found `pa\\xc3\\xa9rt`\n\
\tpart  config - page - run fans number 00000000004294967295\r# x => 7 part: refused 7";

// What is said to line 7, for lines that are no calls, calls and lines without words.
#[test]
fn lines_and_what_is_said(rt: HostRuntime) -> Result<(), Fail> {
    let heap = rt.alloc();
    let mut shelves = Shelves::begin();
    says_all(&rt, heap, &mut shelves, PARTS)?;
    for line in ["", " \t\r", "# part", "  #part"] {
        let said = respond(&mut shelves, heap, 7, line.as_bytes())?;
        assert!(rt; said.text().is_none() && said.is_readable());
    }
    Ok(())
}

// Every place at which a `shelf` or `outputs` line may be unreadable, and what is said to it.
const UNREADABLE: &str = "\
shelf => 7 unreadable: expected `plain` or `packed`, found the end of the line\n\
shelf Plain fans 1 => 7 unreadable: expected `plain` or `packed`, found `Plain`\n\
shelf plain => 7 unreadable: expected `fans`, found the end of the line\n\
shelf packed fan 1 => 7 unreadable: expected `fans`, found `fan`\n\
shelf plain fans => 7 unreadable: expected a number up to 255, found the end of the line\n\
shelf plain fans 256 => 7 unreadable: expected a number up to 255, found `256`\n\
shelf plain fans 255 slots => 7 unreadable: expected `supplies`, found `slots`\n\
shelf plain fans 255 supplies x => 7 unreadable: expected a number up to 255, found `x`\n\
shelf plain fans 255 supplies 255 sensors => 7 unreadable: expected `slots`, found `sensors`\n\
shelf plain fans 255 supplies 255 slots -1 => 7 unreadable: expected a number up to 255, found `-1`\n\
shelf plain fans 255 supplies 255 slots 255 thermostats => 7 unreadable: expected `sensors`, found `thermostats`\n\
shelf plain fans 255 supplies 255 slots 255 sensors 256 => 7 unreadable: expected a number up to 255, found `256`\n\
shelf plain fans 255 supplies 255 slots 255 sensors 255 lock => 7 unreadable: expected `thermostats`, found `lock`\n\
shelf plain fans 255 supplies 255 slots 255 sensors 255 thermostats 1000 => 7 unreadable: expected a number up to 255, found `1000`\n\
shelf plain fans 255 supplies 255 slots 255 sensors 255 thermostats 255 alarm yes => 7 unreadable: expected `lock`, found `alarm`\n\
shelf plain fans 255 supplies 255 slots 255 sensors 255 thermostats 255 lock Yes => 7 unreadable: expected `yes` or `no`, found `Yes`\n\
shelf plain fans 255 supplies 255 slots 255 sensors 255 thermostats 255 lock yes ids => 7 unreadable: expected `alarm`, found `ids`\n\
shelf plain fans 255 supplies 255 slots 255 sensors 255 thermostats 255 lock yes alarm 1 => 7 unreadable: expected `yes` or `no`, found `1`\n\
shelf plain fans 255 supplies 255 slots 255 sensors 255 thermostats 255 lock yes alarm => 7 unreadable: expected `yes` or `no`, found the end of the line\n\
shelf plain fans 255 supplies 255 slots 255 sensors 255 thermostats 255 lock yes alarm no identity => 7 unreadable: expected `ids`, found `identity`\n\
shelf plain fans 255 supplies 255 slots 255 sensors 255 thermostats 255 lock yes alarm no ids 000 => 7 unreadable: expected bytes: an even number of hexadecimal digits, or `-`, found `000`\n\
shelf plain fans 255 supplies 255 slots 255 sensors 255 thermostats 255 lock no alarm no ids - image => 7 unreadable: expected `identity`, found `image`\n\
shelf plain fans 255 supplies 255 slots 255 sensors 255 thermostats 255 lock no alarm no ids - identity => 7 unreadable: expected 36 bytes: 72 hexadecimal digits, found the end of the line\n\
shelf plain fans 255 supplies 255 slots 255 sensors 255 thermostats 255 lock no alarm no ids - identity - => 7 unreadable: expected 36 bytes: 72 hexadecimal digits, found `-`\n\
shelf plain fans 255 supplies 255 slots 255 sensors 255 thermostats 255 lock no alarm no ids - identity 0000000000000000000000000000000000000000000000000000000000000000000000 => 7 unreadable: expected 36 bytes: 72 hexadecimal digits, found `0000000000000000000000000000000000000000...`\n\
shelf plain fans 255 supplies 255 slots 255 sensors 255 thermostats 255 lock no alarm no ids - identity 00000000000000000000000000000000000000000000000000000000000000000000000 => 7 unreadable: expected 36 bytes: 72 hexadecimal digits, found `0000000000000000000000000000000000000000...`\n\
shelf plain fans 255 supplies 255 slots 255 sensors 255 thermostats 255 lock no alarm no ids - identity 00000000000000000000000000000000000000000000000000000000000000000000000000 => 7 unreadable: expected 36 bytes: 72 hexadecimal digits, found `0000000000000000000000000000000000000000...`\n\
shelf plain fans 255 supplies 255 slots 255 sensors 255 thermostats 255 lock no alarm no ids - identity 000000000000000000000000000000000000000000000000000000000000000000000000 image - => 7 unreadable: expected the end of the line, found `image`\n\
shelf packed fans 255 supplies 255 slots 255 sensors 255 thermostats 255 lock no alarm no ids - identity 000000000000000000000000000000000000000000000000000000000000000000000000 imag - => 7 unreadable: expected the end of the line, found `imag`\n\
shelf packed fans 255 supplies 255 slots 255 sensors 255 thermostats 255 lock no alarm no ids - identity 000000000000000000000000000000000000000000000000000000000000000000000000 image => 7 unreadable: expected bytes: an even number of hexadecimal digits, or `-`, found the end of the line\n\
shelf packed fans 255 supplies 255 slots 255 sensors 255 thermostats 255 lock no alarm no ids - identity 000000000000000000000000000000000000000000000000000000000000000000000000 image 0 => 7 unreadable: expected bytes: an even number of hexadecimal digits, or `-`, found `0`\n\
shelf packed fans 255 supplies 255 slots 255 sensors 255 thermostats 255 lock no alarm no ids - identity 000000000000000000000000000000000000000000000000000000000000000000000000 image 00 image => 7 unreadable: expected the end of the line, found `image`\n\
outputs all => 7 unreadable: expected the end of the line, found `all`\n\
Outputs => 7 unreadable: expected a call: `shelf`, `outputs` or `part`, found `Outputs`";

// An unreadable line leaves the shelf that is held, or that none is.
#[test]
fn unreadable_shelves(rt: HostRuntime) -> Result<(), Fail> {
    let heap = rt.alloc();
    let mut shelves = Shelves::begin();
    says_all(&rt, heap, &mut shelves, UNREADABLE)?;
    let before = "7 unreadable: expected a `shelf` line before it, found `outputs`";
    says(&rt, heap, &mut shelves, "outputs", before)?;
    let shelf =
        "shelf plain fans 1 supplies 0 slots 2 sensors 0 thermostats 0 lock no alarm no ids 0001 identity 53484f5753484f5753484f5753484f5753484f5753484f5753484f5753484f5753484f57";
    says(&rt, heap, &mut shelves, shelf, "7 shelf: made; lamps 0 0")?;
    says_all(&rt, heap, &mut shelves, UNREADABLE)?;
    let outputs = "7 outputs: lamps 0 0; joins 0 0; speeds 0; supplies -; alarm 0; lock 0";
    says(&rt, heap, &mut shelves, "outputs", outputs)
}

// A packed shelf over an image of ones, and over one that is too short.
#[test]
fn packed_shelves(rt: HostRuntime) -> Result<(), Fail> {
    let heap = rt.alloc();
    let mut shelves = Shelves::begin();
    says_all(&rt, heap, &mut shelves, PACKED)
}

const PACKED: &str = "\
shelf packed fans 2 supplies 1 slots 3 sensors 0 thermostats 0 lock yes alarm yes ids 000102 identity 53484f5753484f5753484f5753484f5753484f5753484f5753484f5753484f5753484f57 image FFFFFFFFFFFFFFFFFFFFFFFFFFFFFFFFFFFFFF => 7 shelf: made; lamps 15 15 15\n\
outputs => 7 outputs: lamps 15 15 15; joins 1 1 1; speeds 15 15; supplies 1; alarm 1; lock 1; image ff ff ff ff ff ff ff ff ff ff ff ff ff ff ff ff ff ff ff\n\
shelf packed fans 2 supplies 1 slots 3 sensors 0 thermostats 0 lock no alarm no ids 000102 identity 53484f5753484f5753484f5753484f5753484f5753484f5753484f5753484f5753484f57 image ffffffffffffffffffffffffffffffffffffff => 7 shelf: made; lamps 15 15 15\n\
outputs => 7 outputs: lamps 15 15 15; joins 1 1 1; speeds 15 15; supplies 1; alarm 0; lock 0; image ff ff ff ff ff ff ff ff ff ff ff ff ff ff ff ff ff ff ff\n\
shelf packed fans 2 supplies 1 slots 3 sensors 0 thermostats 0 lock yes alarm yes ids 000102 identity 53484f5753484f5753484f5753484f5753484f5753484f5753484f5753484f5753484f57 image ffffffffffffffffffffffffffffffffffff => 7 shelf: made; lamps -\n\
outputs => 7 outputs: lamps -; joins -; speeds -; supplies -; alarm 0; lock 0; image ff ff ff ff ff ff ff ff ff ff ff ff ff ff ff ff ff ff\n\
shelf packed fans 2 supplies 1 slots 3 sensors 0 thermostats 0 lock yes alarm yes ids 0001 identity 53484f5753484f5753484f5753484f5753484f5753484f5753484f5753484f5753484f57 image ffffffffffffffffffffffffffffffffffffff => 7 shelf: made; lamps -\n\
outputs => 7 outputs: lamps -; joins -; speeds -; supplies -; alarm 0; lock 0; image ff ff ff ff ff ff ff ff ff ff ff ff ff ff ff ff ff ff ff";

// A line that was gathered is answered, and one that was too long; the next line begins.
#[test]
fn gathered_lines(rt: HostRuntime) -> Result<(), Fail> {
    let heap = rt.alloc();
    let mut shelves = Shelves::begin();
    let mut line = LineBuffer::new(heap);
    let _ = line.take(b"out")?;
    let _ = line.take(b"puts\n")?;
    let said = answer(&mut shelves, heap, 1, &mut line)?;
    assert!(rt; !said.is_readable() && line.is_empty());
    let long = vec![in heap; b'#'; 1048577]?;
    let _ = line.take(long.as_slice())?;
    let said = answer(&mut shelves, heap, 2, &mut line)?;
    assert!(rt; !said.is_readable() && line.is_empty());
    match said.text() {
        Some(text) => {
            assert_eq!(rt;
                text,
                "2 unreadable: expected a line of at most 1048576 bytes, found a longer one"
            );
            Ok(())
        },
        None => Err(Fail::new("nothing was said")),
    }
}
