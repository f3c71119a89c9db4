// Tables as they are printed.
use display::columns::Columns;
use std::fmt;

/// Numbers, each behind a blank.
#[derive(Clone, Copy, Debug)]
pub struct Listed<'a>(pub &'a [u32]);

impl fmt::Display for Listed<'_> {
    fn fmt<W: fmt::Write>(&self, f: &mut fmt::Formatter<W>) -> fmt::Result {
        if self.0.is_empty() {
            return Ok(());
        }
        let columns = Columns(self.0);
        write!(f, " {columns}")
    }
}

/// The first of so many numbers, or all if there are fewer.
pub fn first_of(numbers: &[u32], n: usize) -> &[u32] {
    &numbers[..n.min(numbers.len())]
}

/// A table with two columns: how many classes, the row of each, and which accept.
#[derive(Clone, Copy, Debug)]
pub struct Listing<'a> {
    pub rows: &'a [u32],
    pub accept: &'a [u32],
    pub classes: usize,
}

impl fmt::Display for Listing<'_> {
    fn fmt<W: fmt::Write>(&self, f: &mut fmt::Formatter<W>) -> fmt::Result {
        let classes = self.classes;
        write!(f, "{classes} classes, rows")?;
        for (q, row) in self.rows.chunks(2).take(classes).enumerate() {
            if q > 0 {
                write!(f, " /")?;
            }
            let row = Listed(row);
            write!(f, "{row}")?;
        }
        let accept = Listed(first_of(self.accept, classes));
        write!(f, ", accept{accept}")
    }
}
