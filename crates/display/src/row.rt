// A row of marks: the places of one set.
ghost use Rattle.std.specs.Prelude.{◌≡◌, Some};
ghost use Rattle.words.specs.Words;
ghost use Rattle.display.specs.Marks.{mark_of, marks_of};

use std::fmt;
use words::bits::{Set, has_bit};

const COLUMN_BITS: usize = 32;

// Whether the column has set x, also where a column has no bit for so high a number, and so has not.
fn is_marked(column: u32, x: usize) -> bool
    ensures { result ≡ Words.bit x column }
{
    if x < COLUMN_BITS {
        has_bit(column, Set(x as u8))
    } else {
        false
    }
}

// The mark of a column.
fn mark(column: u32, x: usize) -> char
    ensures { result ≡ mark_of x column }
{
    if is_marked(column, x) { '#' } else { '.' }
}

/// The marks of set x: for each column `#` where it has the set, else `.`.
#[derive(Clone, Copy)]
pub struct Row<'a> {
    pub columns: &'a [u32],
    pub x: usize,
}

impl fmt::Display for Row<'_> {
    ghost output = { λ row. Some (marks_of row.x row.columns.now) };

    fn fmt<W: fmt::Write>(&self, f: &mut fmt::Formatter<W>) -> fmt::Result {
        for column in self.columns {
            let mark = mark(*column, self.x);
            write!(f, "{mark}")?;
        }
        Ok(())
    }
}
