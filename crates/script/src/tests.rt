use crate::lines::{answer, respond};
use crate::questions::Questions;
use gathered::LineBuffer;
use std::test::Fail;

// What is said to line 7, for lines that are no calls, calls and lines without words.
#[test]
fn lines_and_what_is_said(rt: HostRuntime) -> Result<(), Fail> {
    let rows = [
        (
            "part",
            "7 unreadable: expected `config`, found the end of the line",
        ),
        (
            "part page - config -",
            "7 unreadable: expected `config`, found `page`",
        ),
        (
            "part config 0 page -",
            "7 unreadable: expected bytes: an even number of hexadecimal digits, or `-`, found `0`",
        ),
        (
            "part config 0g page -",
            "7 unreadable: expected bytes: an even number of hexadecimal digits, or `-`, found `0g`",
        ),
        (
            "part config - page",
            "7 unreadable: expected bytes: an even number of hexadecimal digits, or `-`, found the end of the line",
        ),
        (
            "part config - page - run",
            "7 unreadable: expected a run: `fans`, `supplies`, `ids`, `temperatures`, `slots`, `counts` or a number up to 255, found the end of the line",
        ),
        (
            "part config - page - run Fans",
            "7 unreadable: expected a run: `fans`, `supplies`, `ids`, `temperatures`, `slots`, `counts` or a number up to 255, found `Fans`",
        ),
        (
            "part config - page - run 256 number 0",
            "7 unreadable: expected a run: `fans`, `supplies`, `ids`, `temperatures`, `slots`, `counts` or a number up to 255, found `256`",
        ),
        (
            "part config - page - run 255 number -1",
            "7 unreadable: expected a number up to 4294967295, found `-1`",
        ),
        (
            "part config - page - run fans number 4294967296",
            "7 unreadable: expected a number up to 4294967295, found `4294967296`",
        ),
        (
            "part config - page - run fans number 0 0",
            "7 unreadable: expected the end of the line, found `0`",
        ),
        (
            "Part config - page - run fans number 0",
            "7 unreadable: expected a call: `part`, found `Part`",
        ),
        (
            "pa\u{e9}rt \\",
            "7 unreadable: expected a call: `part`, found `pa\\xc3\\xa9rt`",
        ),
        (
            "\tpart  config - page - run fans number 00000000004294967295\r# x",
            "7 part: refused 7",
        ),
    ];
    for (line, said) in rows {
        match respond(&mut Questions, rt.alloc(), 7, line.as_bytes())?.text() {
            Some(text) => assert_eq!(rt; text, said),
            None => return Err(Fail::new("nothing was said")),
        }
    }
    for line in ["", " \t\r", "# part", "  #part"] {
        let said = respond(&mut Questions, rt.alloc(), 7, line.as_bytes())?;
        assert!(rt; said.text().is_none() && said.is_readable());
    }
    Ok(())
}

// A line of the longest length is read; one byte more is not, and the next line begins anew.
#[test]
fn long_lines(rt: HostRuntime) -> Result<(), Fail> {
    let heap = rt.alloc();
    let mut line = LineBuffer::new(heap);
    let half = vec![in heap; b'#'; 524288]?;
    assert!(rt; !line.take(half.as_slice())?.ended);
    assert!(rt; !line.take(half.as_slice())?.ended);
    let taken = line.take(b"\nx")?;
    assert_eq!(rt; (taken.used, taken.ended), (1, true));
    assert!(rt; answer(&mut Questions, heap, 1, &mut line)?.text().is_none());
    assert!(rt; line.is_empty());
    let _ = line.take(half.as_slice())?;
    let _ = line.take(half.as_slice())?;
    let taken = line.take(b"#\n")?;
    assert_eq!(rt; (taken.used, taken.ended), (2, true));
    let said = answer(&mut Questions, heap, 2, &mut line)?;
    assert!(rt; !said.is_readable());
    match said.text() {
        Some(text) => assert_eq!(rt;
            text,
            "2 unreadable: expected a line of at most 1048576 bytes, found a longer one"
        ),
        None => return Err(Fail::new("nothing was said")),
    }
    assert!(rt; line.is_empty());
    Ok(())
}
