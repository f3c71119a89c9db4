// A word as numbers.
ghost use Rattle.std.specs.Prelude.{Some};
ghost use Rattle.display.specs.Columns.{columns_of};

use std::fmt;

/// Numbers that print in decimal digits, with one space between each two; the columns of a word, say.
#[derive(Clone, Copy, Debug)]
pub struct Columns<'a>(pub &'a [u32]);

impl fmt::Display for Columns<'_> {
    ghost output = { λ columns. Some (columns_of columns.0.now) };

    fn fmt<W: fmt::Write>(&self, f: &mut fmt::Formatter<W>) -> fmt::Result {
        if let [first, rest @ ..] = self.0 {
            write!(f, "{first}")?;
            for column in rest {
                write!(f, " {column}")?;
            }
        }
        Ok(())
    }
}
