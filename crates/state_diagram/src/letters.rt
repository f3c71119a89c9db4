// A pattern as people read it.
use std::fmt;
use transitions::pattern::Letter;

/// The letters of a pattern, one for each of so many names: 0 for a set that does not have the place, 1 for one that has it, X for either. X stands also where the pattern has no letter.
#[derive(Clone, Copy)]
pub struct Letters<'a> {
    pub pattern: &'a [Letter],
    pub names: usize,
}

fn letter_of(pattern: &[Letter], x: usize) -> char {
    match pattern.get(x) {
        Some(Letter::Zero) => '0',
        Some(Letter::One) => '1',
        Some(Letter::Any) | None => 'X',
    }
}

impl fmt::Display for Letters<'_> {
    fn fmt<W: fmt::Write>(&self, f: &mut fmt::Formatter<W>) -> fmt::Result {
        for x in 0..self.names {
            let letter = letter_of(self.pattern, x);
            write!(f, "{letter}")?;
        }
        Ok(())
    }
}
