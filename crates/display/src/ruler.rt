// The ruler above rows of marks: the numbers of every tenth place, and below them the last digit of each place's number.
ghost use Rattle.std.specs.Prelude.{◌+◌, ◌*◌, ◌^◌, ◌<◌, Some};
ghost use Rattle.display.specs.Ruler.{margin, tens_line, units_line};

use crate::blanks::Blanks;
use crate::ends::Ends;
use std::fmt;

// What stands before a ruler, as wide as names of up to `width` signs take, with one sign more where the word's ends are shown.
#[derive(Clone, Copy)]
struct Margin {
    width: usize,
    ends: Ends,
}

impl fmt::Display for Margin {
    ghost output = { λ before. Some (margin before.width before.ends) };

    fn fmt<W: fmt::Write>(&self, f: &mut fmt::Formatter<W>) -> fmt::Result {
        let blanks = Blanks(self.width);
        let more = Blanks(self.ends.width() + 1);
        write!(f, "    {blanks}{more}")
    }
}

/// The numbers of every tenth of at least one place, from place `from` on, each above its place, behind a margin as wide as names of up to `width` signs take, and
/// one sign wider where the word's ends are shown. Before the last number there are `before`, each with blanks up to ten signs.
#[derive(Clone, Copy)]
pub struct Tens {
    pub width: usize,
    pub ends: Ends,
    pub from: usize,
    pub before: usize,
    ghost in_range: { from + 10 * before < 2 ^ 64 },
}

impl fmt::Display for Tens {
    ghost output = { λ tens. Some (tens_line tens.width tens.ends tens.from tens.before) };

    fn fmt<W: fmt::Write>(&self, f: &mut fmt::Formatter<W>) -> fmt::Result {
        let margin = Margin {
            width: self.width,
            ends: self.ends,
        };
        write!(f, "{margin}")?;
        for k in 0..self.before {
            let place = self.from + 10 * k;
            write!(f, "{place:<10}")?;
        }
        let last = self.from + 10 * self.before;
        writeln!(f, "{last}")
    }
}

/// The last digits of the numbers of so many places, the first of which is a multiple of ten, behind the same margin.
#[derive(Clone, Copy)]
pub struct Units {
    pub width: usize,
    pub ends: Ends,
    pub count: usize,
}

impl fmt::Display for Units {
    ghost output = { λ units. Some (units_line units.width units.ends units.count) };

    fn fmt<W: fmt::Write>(&self, f: &mut fmt::Formatter<W>) -> fmt::Result {
        let margin = Margin {
            width: self.width,
            ends: self.ends,
        };
        write!(f, "{margin}")?;
        for place in 0..self.count {
            let digit = place % 10;
            write!(f, "{digit}")?;
        }
        writeln!(f)
    }
}
