// Bytes as they are written.
#![tactic(auto)]

ghost use Rattle.std.specs.Prelude.{◌≡◌, Some};
ghost use Rattle.printed.specs.Shown.{pair, mark, safe, spaced, quoted};

use std::fmt;

// Writes a byte as two hex digits.
#[derive(Clone, Copy)]
struct Pair(u8);

impl fmt::Display for Pair {
    ghost output = { λ x. Some (pair x.0) };

    #[tactic(auto, using(std::proofs::lemmas::Fmt::hex_byte))]
    fn fmt<W: fmt::Write>(&self, f: &mut fmt::Formatter<W>) -> fmt::Result {
        let b = self.0;
        write!(f, "{b:02x}")
    }
}

// Writes bytes as two hex digits each, with one blank between each two, and `-` for none.
#[derive(Clone, Copy)]
pub struct Spaced<'a>(pub &'a [u8]);

impl fmt::Display for Spaced<'_> {
    ghost output = { λ x. Some (spaced x.0.now) };

    fn fmt<W: fmt::Write>(&self, f: &mut fmt::Formatter<W>) -> fmt::Result {
        match self.0 {
            [] => f.write_str("-"),
            [first, rest @ ..] => {
                write!(f, "{}", Pair(*first))?;
                for b in rest {
                    write!(f, " {}", Pair(*b))?;
                }
                Ok(())
            }
        }
    }
}

// Whether a byte is written as itself.
fn is_safe(b: u8) -> bool
    ensures { result ≡ safe b }
{
    b.is_ascii_graphic() && b != b'\\' && b != b'`'
}

// Writes a byte of a word: itself where that is safe, else `\x` and two hex digits.
#[derive(Clone, Copy)]
struct Mark(u8);

impl fmt::Display for Mark {
    ghost output = { λ x. Some (mark x.0) };

    fn fmt<W: fmt::Write>(&self, f: &mut fmt::Formatter<W>) -> fmt::Result {
        let b = self.0;
        if is_safe(b) {
            f.write_char(char::from(b))
        } else {
            write!(f, "\\x{}", Pair(b))
        }
    }
}

// How many bytes of a word are shown.
const MOST_SHOWN: usize = 40;

// Writes a word so that it is safe to print: its visible bytes as they are but for the backquote and the backslash,
// any other as `\x` and two hex digits, and `...` for what follows the first 40.
#[derive(Clone, Copy)]
pub struct Quoted<'a>(pub &'a [u8]);

impl fmt::Display for Quoted<'_> {
    ghost output = { λ x. Some (quoted x.0.now) };

    fn fmt<W: fmt::Write>(&self, f: &mut fmt::Formatter<W>) -> fmt::Result {
        let word = self.0;
        let (shown, rest) = word.split_at(word.len().min(MOST_SHOWN));
        for b in shown {
            write!(f, "{}", Mark(*b))?;
        }
        if rest.is_empty() {
            Ok(())
        } else {
            f.write_str("...")
        }
    }
}
