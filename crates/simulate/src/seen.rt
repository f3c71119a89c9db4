// What a module of a given row sees, and what the table does with it.
ghost use Rattle.std.specs.Prelude.{◌≡◌, ◌+◌, ◌^◌, ◌<◌, ◌≤◌};
ghost use Rattle.rows.specs.Views;
ghost use Rattle.rows.specs.Patterns;
ghost use Rattle.rows.specs.Rules;
ghost use Rattle.rows.specs.Rows;
ghost use Rattle.words.specs.Words;
ghost use Rattle.simulate.specs.Seen.{place_of, view_of, packed};

use rows::line::{Line, Pattern};
use rows::rule::{Asked, Literal, NewBit, Side};
use rules::table::entry_of;
use words::bits::{Set, has_bit};

#[derive(Clone, Copy)]
pub struct Seen {
    pub left: Option<u32>,
    pub own: u32,
    pub right: Option<u32>,
}

const COLUMN_BITS: u8 = 32;

fn has(column: u32, j: u8) -> bool
    ensures { result ≡ Words.bit j column }
{
    if j < COLUMN_BITS {
        has_bit(column, Set(j))
    } else {
        false
    }
}

fn shows(place: Option<u32>, asked: Asked) -> bool
    ensures { result ≡ Views.shows (place_of place) asked }
{
    match (place, asked) {
        (None, _) => false,
        (Some(_), Asked::There) => true,
        (Some(a), Asked::Bit(j)) => has(a, j),
    }
}

impl Seen {
    pub fn sees(&self, side: Side, asked: Asked) -> bool
        ensures { result ≡ view_of self.now side asked }
    {
        match side {
            Side::Left => shows(self.left, asked),
            Side::Own => shows(Some(self.own), asked),
            Side::Right => shows(self.right, asked),
        }
    }

    pub fn fits(&self, ps: &[Literal]) -> bool
        ensures { result ≡ Patterns.fits ps.now (view_of self.now) }
    {
        let [p, rest @ ..] = ps else {
            return true;
        };
        self.sees(p.side, p.asked) == p.set && self.fits(rest)
    }

    pub fn fits_any(&self, patterns: &[Pattern]) -> bool
        ensures { result ≡ Patterns.any_fits patterns.now (view_of self.now) }
    {
        let [p, rest @ ..] = patterns else {
            return false;
        };
        self.fits(p.literals()) || self.fits_any(rest)
    }

    pub fn value(&self, new: NewBit) -> bool
        ensures { result ≡ Rules.value new (view_of self.now) }
    {
        match new {
            NewBit::Fixed(set) => set,
            NewBit::AsWas(side, j) => self.sees(side, Asked::Bit(j)),
        }
    }

    // Bit j after the step, by the first line that fits.
    pub fn bit_after(&self, table: &[Line], j: u8) -> bool
        ensures { result ≡ Rules.bit_after table.now (view_of self.now) j }
    {
        let [line, rest @ ..] = table else {
            return self.sees(Side::Own, Asked::Bit(j));
        };
        if self.fits(line.when()) {
            self.value(entry_of(line.bits(), j))
        } else {
            self.bit_after(rest, j)
        }
    }

    pub fn moves(&self, table: &[Line]) -> bool
        ensures { result ≡ Rules.moves table.now (view_of self.now) }
    {
        let [line, rest @ ..] = table else {
            return false;
        };
        if self.fits(line.when()) {
            line.moves()
        } else {
            self.moves(rest)
        }
    }

    // The module after the step: its bits from j on, so many of them.
    pub fn after(&self, table: &[Line], j: u8, count: u8) -> u32
        requires { j + count ≤ 11 }
        ensures column { result ≡ packed count (Rules.bit_after table.now (view_of self.now)) j }
        ensures fits { result < 2 ^ count }
    {
        if count == 0 {
            return 0;
        }
        let rest = self.after(table, j + 1, count - 1);
        if self.bit_after(table, j) {
            1 + 2 * rest
        } else {
            2 * rest
        }
    }
}
