// What was expected in a line, in words.
ghost use Rattle.std.specs.Prelude.{Some};
ghost use Rattle.fields.specs.Texts.{expected_text};

use crate::expected::{Calls, Expected};
use std::fmt;

impl fmt::Display for Expected {
    ghost output = { λ x. Some (expected_text x) };

    fn fmt<W: fmt::Write>(&self, f: &mut fmt::Formatter<W>) -> fmt::Result {
        match *self {
            Expected::Call(Calls::Part) => write!(f, "a call: `part`"),
            Expected::Call(Calls::Shelves) => write!(f, "a call: `shelf`, `outputs` or `part`"),
            Expected::Keyword(name) => {
                let text = name.text();
                write!(f, "`{text}`")
            }
            Expected::Bytes => write!(f, "bytes: an even number of hexadecimal digits, or `-`"),
            Expected::Run => write!(
                f,
                "a run: `fans`, `supplies`, `ids`, `temperatures`, `slots`, `counts` or a number up to 255"
            ),
            Expected::Number(most) => write!(f, "a number up to {most}"),
            Expected::Kind => write!(f, "`plain` or `packed`"),
            Expected::YesNo => write!(f, "`yes` or `no`"),
            Expected::Identity => write!(f, "36 bytes: 72 hexadecimal digits"),
            Expected::ShelfBefore => write!(f, "a `shelf` line before it"),
            Expected::End => write!(f, "the end of the line"),
        }
    }
}
