// Examples of words that are read and written.
#![tactic(auto)]

ghost use Rattle.std.specs.Prelude.{◌≡◌, IfOk, string_bytes};
ghost use Rattle.printed.specs.Shown.{quoted, spaced};

use printed::{Quoted, Spaced};
use std::alloc::{AllocError, Global};

// Bytes as text, and a word as it is printed.
pub fn spaced_text(heap: Global, bytes: &[u8]) -> Result<String, AllocError>
    ensures { IfOk result (λ s. string_bytes s ≡ spaced bytes.now) }
{
    format!(in heap; "{}", Spaced(bytes))
}

pub fn quoted_text(heap: Global, word: &[u8]) -> Result<String, AllocError>
    ensures { IfOk result (λ s. string_bytes s ≡ quoted word.now) }
{
    format!(in heap; "{}", Quoted(word))
}

#[cfg(test)]
mod tests {
    use super::{quoted_text, spaced_text};
    use digits::hex::{HexFault, hex_digit, read_bytes, read_hex};
    use digits::number::read_number;
    use std::alloc::Global;
    use std::process::Abort;
    use std::test::Fail;
    use words::Words;

    #[test]
    fn digits(rt: HostRuntime) {
        assert_eq!(rt; hex_digit(b'0'), Some(0));
        assert_eq!(rt; hex_digit(b'9'), Some(9));
        assert_eq!(rt; hex_digit(b'a'), Some(10));
        assert_eq!(rt; hex_digit(b'F'), Some(15));
        for c in [b'/', b':', b'@', b'G', b'`', b'g', 0, 255] {
            assert_eq!(rt; hex_digit(c), None);
        }
    }

    fn reads(rt: &impl Abort, heap: Global, text: &str, bytes: &[u8]) -> Result<(), Fail> {
        let read = read_hex(heap, text.as_bytes())?;
        assert_eq!(rt; read.as_slice(), bytes);
        Ok(())
    }

    #[test]
    fn hex(rt: HostRuntime) -> Result<(), Fail> {
        let heap = rt.alloc();
        reads(&rt, heap, "", &[])?;
        reads(&rt, heap, "00", &[0])?;
        reads(&rt, heap, "0aFf10", &[0x0a, 0xff, 0x10])?;
        reads(&rt, heap, "DEADbeef", &[0xde, 0xad, 0xbe, 0xef])?;
        for text in ["0", "abc", "0g", "g0", "0x10", " 10", "10 ", "-"] {
            let fault = read_hex(heap, text.as_bytes()).err();
            assert_eq!(rt; fault, Some(HexFault::NotHex));
        }
        Ok(())
    }

    #[test]
    fn bytes(rt: HostRuntime) -> Result<(), Fail> {
        let heap = rt.alloc();
        assert_eq!(rt; read_bytes(heap, b"-")?.len(), 0);
        assert_eq!(rt;
            read_bytes(heap, b"12ab")?.as_slice(),
            [0x12u8, 0xab].as_slice()
        );
        for word in ["", "--", "-12", "1"] {
            let fault = read_bytes(heap, word.as_bytes()).err();
            assert_eq!(rt; fault, Some(HexFault::NotHex));
        }
        Ok(())
    }

    #[test]
    fn numbers(rt: HostRuntime) {
        assert_eq!(rt; read_number(b"0", 0), Some(0));
        assert_eq!(rt; read_number(b"255", 255), Some(255));
        assert_eq!(rt; read_number(b"256", 255), None);
        assert_eq!(rt; read_number(b"007", 7), Some(7));
        assert_eq!(rt; read_number(&[b'0'; 1000], 7), Some(0));
        assert_eq!(rt; read_number(b"4294967295", u32::MAX), Some(u32::MAX));
        assert_eq!(rt; read_number(b"4294967296", u32::MAX), None);
        assert_eq!(rt;
            read_number(b"000000000000000000000000000042", 99),
            Some(42)
        );
        assert_eq!(rt;
            read_number(b"123456789012345678901234567890", u32::MAX),
            None
        );
        for word in ["", "+1", "-1", "1 ", "0x1", "1a", "/", ":"] {
            assert_eq!(rt; read_number(word.as_bytes(), u32::MAX), None);
        }
    }

    fn finds(rt: &impl Abort, line: &str, words: &[&str]) {
        let mut left = Words::of(line.as_bytes());
        for word in words {
            assert_eq!(rt; left.next(), Some(word.as_bytes()));
        }
        assert_eq!(rt; left.next(), None);
    }

    #[test]
    fn words(rt: HostRuntime) {
        finds(&rt, "", &[]);
        finds(&rt, " \t\r ", &[]);
        finds(&rt, "# nothing", &[]);
        finds(&rt, "reset", &["reset"]);
        finds(&rt, "  a\tbc \r d\r", &["a", "bc", "d"]);
        finds(&rt, "a b# c d", &["a", "b"]);
        finds(&rt, "a #b", &["a"]);
        assert_eq!(rt; Words::of(b"a b# c d").count(), 2);
    }

    fn shows(rt: &impl Abort, heap: Global, bytes: &[u8], text: &str) -> Result<(), Fail> {
        assert_eq!(rt; spaced_text(heap, bytes)?.as_str(), text);
        Ok(())
    }

    #[test]
    fn spaced(rt: HostRuntime) -> Result<(), Fail> {
        let heap = rt.alloc();
        shows(&rt, heap, &[], "-")?;
        shows(&rt, heap, &[0], "00")?;
        shows(&rt, heap, &[0x0a, 0xff, 0x10], "0a ff 10")
    }

    fn quotes(rt: &impl Abort, heap: Global, word: &[u8], text: &str) -> Result<(), Fail> {
        assert_eq!(rt; quoted_text(heap, word)?.as_str(), text);
        Ok(())
    }

    #[test]
    fn quoted(rt: HostRuntime) -> Result<(), Fail> {
        let heap = rt.alloc();
        quotes(&rt, heap, b"", "")?;
        quotes(&rt, heap, b"!az~", "!az~")?;
        quotes(
            &rt,
            heap,
            b" \\`\x7f\xff\n",
            "\\x20\\x5c\\x60\\x7f\\xff\\x0a",
        )?;
        quotes(
            &rt,
            heap,
            &[b'w'; 40],
            "wwwwwwwwwwwwwwwwwwwwwwwwwwwwwwwwwwwwwwww",
        )?;
        quotes(
            &rt,
            heap,
            &[b'w'; 41],
            "wwwwwwwwwwwwwwwwwwwwwwwwwwwwwwwwwwwwwwww...",
        )
    }
}
