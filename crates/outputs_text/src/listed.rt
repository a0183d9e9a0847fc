// Numbers as text.
ghost use Rattle.std.specs.Prelude.{◌∷◌, Some};
ghost use Rattle.std.specs.Fmt.{WritesOnOk};
ghost use Rattle.std.specs.List.{flat_map};
ghost use Rattle.outputs_text.specs.Outputs.{after_blank, numbers_text};

use std::fmt;

// Writes a number after a blank.
fn write_number<W: fmt::Write>(f: &mut fmt::Formatter<W>, n: u8) -> fmt::Result
    ensures { WritesOnOk W.Write.write_str_gives f.old result (after_blank n) f.new }
{
    write!(f, " {n}")
}

// Writes each number after a blank.
fn write_all<W: fmt::Write>(f: &mut fmt::Formatter<W>, numbers: &[u8]) -> fmt::Result
    ensures { WritesOnOk W.Write.write_str_gives f.old result (flat_map after_blank numbers.now) f.new }
{
    for n in numbers {
        write_number(f, *n)?;
    }
    Ok(())
}

// Writes numbers in decimal, with one blank between each two, and `-` for none.
// `Spaced` of crate `printed` does likewise in hex: one type for both would have to be told how a byte is written.
#[derive(Clone, Copy)]
pub struct Listed<'a>(pub &'a [u8]);

impl fmt::Display for Listed<'_> {
    ghost output = { λ x. Some (numbers_text x.0.now) };

    fn fmt<W: fmt::Write>(&self, f: &mut fmt::Formatter<W>) -> fmt::Result {
        match self.0 {
            [] => f.write_str("-"),
            [first, rest @ ..] => {
                write!(f, "{first}")?;
                write_all(f, rest)
            }
        }
    }
}
