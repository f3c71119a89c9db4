// Words as rows of marks: a row for each name, a sign for each place, under a ruler. Long words are wrapped.
ghost use Rattle.std.specs.Prelude.{◌≡◌, ◌+◌, ◌^◌, ◌<◌, ◌≤◌, length, Some, map};
ghost use Rattle.display.specs.Marks.{block_of, left_end, longest, right_end, shown};

use crate::blanks::Blanks;
use crate::ends::Ends;
use crate::row::Row;
use crate::ruler::{Tens, Units};
use std::fmt;

// How many places stand on a line: a multiple of ten, so that each line's ruler begins with one.
const WIDTH: usize = 60;

/// A word that prints as rows of marks: for each name the marks of its set, whose number is the name's index (`#` for a place that the set has, else `.`),
/// with a ruler above them that numbers the places from 0 on. At most 60 places stand on a line. A word with no columns prints nothing.
/// Where its ends are shown, their sign stands on each row of marks just before the first place's and just behind the last place's, and a blank before the
/// marks of each line below the first.
#[derive(Clone, Copy, Debug)]
pub struct Marks<'n, 't, 'w> {
    pub names: &'n [&'t str],
    pub word: &'w [u32],
    pub ends: Ends,
}

// The places of a word that stand on a line, the first of them, and whether the last of all is there. A word of more than ten places has its tens numbered.
#[derive(Clone, Copy)]
struct Block<'n, 't, 'w> {
    names: &'n [&'t str],
    columns: &'w [u32],
    from: usize,
    tens: bool,
    ends: Ends,
    last: bool,
    ghost some: { 0 < length columns.now },
    ghost in_range: { from + length columns.now < 2 ^ 64 },
}

// The length of the longest name.
#[tactic(auto, using(std::proofs::lemmas::List::Folds::max_of_map))]
fn longest(names: &[&str]) -> usize
    ensures { result ≡ longest (map (λ name. name.now) names.now) }
{
    names.iter().map(|name| name.len()).max().unwrap_or(0)
}

// What stands before the marks of a line, the first place of which is `from`.
fn left_end(ends: Ends, from: usize) -> &'static str
    ensures { result.now ≡ left_end ends from }
{
    match (ends, from) {
        (_, 0) => ends.sign(),
        (Ends::Hidden, _) => "",
        (Ends::Walls | Ends::Seam, _) => " ",
    }
}

// What stands behind the marks of a line.
fn right_end(ends: Ends, last: bool) -> &'static str
    ensures { result.now ≡ right_end ends last }
{
    if last { ends.sign() } else { "" }
}

impl fmt::Display for Block<'_, '_, '_> {
    ghost output = { λ block. Some (block_of block.ends (map (λ name. name.now) block.names.now) block.columns.now block.from block.tens block.last) };

    fn fmt<W: fmt::Write>(&self, f: &mut fmt::Formatter<W>) -> fmt::Result {
        let width = longest(self.names);
        let ends = self.ends;
        let count = self.columns.len();
        if self.tens {
            let tens = Tens {
                width,
                ends,
                from: self.from,
                before: (count - 1) / 10,
            };
            write!(f, "{tens}")?;
        }
        let units = Units { width, ends, count };
        let left = left_end(ends, self.from);
        let right = right_end(ends, self.last);
        write!(f, "{units}")?;
        for (x, name) in self.names.iter().enumerate() {
            let gap = Blanks(width - name.len());
            let row = Row {
                columns: self.columns,
                x,
            };
            writeln!(f, "    {name}{gap} {left}{row}{right}")?;
        }
        Ok(())
    }
}

impl fmt::Display for Marks<'_, '_, '_> {
    ghost output = { λ marks. Some (shown marks.ends (map (λ name. name.now) marks.names.now) marks.word.now) };

    fn fmt<W: fmt::Write>(&self, f: &mut fmt::Formatter<W>) -> fmt::Result {
        let places = self.word.len();
        for k in 0..places.div_ceil(WIDTH) {
            let from = WIDTH * k;
            let block = Block {
                names: self.names,
                columns: &self.word[from..places.min(from + WIDTH)],
                from,
                tens: places > 10,
                ends: self.ends,
                last: places <= from + WIDTH,
            };
            write!(f, "{block}")?;
        }
        Ok(())
    }
}
