// Blanks.
ghost use Rattle.std.specs.Prelude.{Some, replicate};

use std::fmt;

/// So many blanks.
#[derive(Clone, Copy)]
pub struct Blanks(pub usize);

impl fmt::Display for Blanks {
    ghost output = { λ blanks. Some (replicate blanks.0 32) };

    fn fmt<W: fmt::Write>(&self, f: &mut fmt::Formatter<W>) -> fmt::Result {
        for _i in 0..self.0 {
            write!(f, " ")?;
        }
        Ok(())
    }
}
