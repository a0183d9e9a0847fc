use crate::LineBuffer;
use std::test::Fail;

// A line of the longest length is kept; one byte more is not, and the next line begins anew.
#[test]
fn long_lines(rt: HostRuntime) -> Result<(), Fail> {
    let heap = rt.alloc();
    let mut line = LineBuffer::new(heap);
    let half = vec![in heap; b'#'; 524288]?;
    assert!(rt; !line.take(half.as_slice())?.ended);
    assert!(rt; !line.take(half.as_slice())?.ended);
    let taken = line.take(b"\nx")?;
    assert_eq!(rt; (taken.used, taken.ended), (1, true));
    let kept = line.line().map(|bytes| bytes.len());
    assert_eq!(rt; kept, Some(LineBuffer::LONGEST));
    line.begin();
    assert!(rt; line.is_empty());
    let _ = line.take(half.as_slice())?;
    let _ = line.take(half.as_slice())?;
    let taken = line.take(b"#\n")?;
    assert_eq!(rt; (taken.used, taken.ended), (2, true));
    assert!(rt; line.line().is_none() && !line.is_empty());
    line.begin();
    assert!(rt; line.is_empty());
    Ok(())
}
