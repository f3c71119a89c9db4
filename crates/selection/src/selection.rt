// Some of a claim's sets, and columns of these alone: the bits of those sets moved together, and
// back.
// Recursion goes set by set, at most twelve deep; an operation asks for each column once and keeps
// what it is told.
ghost use Rattle.std.specs.Prelude.{◌≡◌, ℕ, ◌^◌, ◌<◌, ◌≤◌, false, ◌||◌, ◌==◌, ◌≢◌};
ghost use Rattle.words.specs.Words.{bit};
ghost use Rattle.narrowing.specs.Columns.{size, extract, deposit};

use words::bits::{Set, has_bit, with_bit, without_bit};

/// Some of the first `of` sets: those whose bits the mask has.
#[derive(Clone, Copy)]
pub struct Selection {
    pub mask: u32,
    pub of: u32,
    ghost few: { of ≤ 12 },
}

impl Selection {
    ghost use Rattle.selection.specs.Selections.{chosen, count, narrow, spread};

    /// The sets x and y, which may be one.
    pub fn pair(x: Set, y: Set, of: u32) -> Selection
        requires first { x.0 < of }
        requires second { y.0 < of }
        requires few { of ≤ 12 }
        ensures of { result.of ≡ of }
        ensures chosen { (z : ℕ) → chosen result z ≡ (z == x.0 || z == y.0) }
    {
        Selection {
            mask: with_bit(with_bit(0, x), y),
            of,
        }
    }

    /// Its sets and those of the other.
    pub fn with(self, other: Selection) -> Selection
        ensures of { result.of ≡ self.of }
        ensures chosen { (z : ℕ) → chosen result z ≡ (chosen self z || chosen other z) }
    {
        Selection {
            mask: self.mask | other.mask,
            of: self.of,
        }
    }

    /// Its sets but x.
    pub fn without(self, x: Set) -> Selection
        requires { x.0 < 32 }
        ensures of { result.of ≡ self.of }
        ensures gone { chosen result x.0 ≡ false }
        ensures others { (z : ℕ) → (z ≢ x.0) → chosen result z ≡ chosen self z }
    {
        Selection {
            mask: without_bit(self.mask, x),
            of: self.of,
        }
    }

    /// Whether it has set x.
    pub fn has(self, x: Set) -> bool
        requires { x.0 < 32 }
        ensures { result ≡ chosen self x.0 }
    {
        has_bit(self.mask, x)
    }

    /// How many sets it has.
    pub fn count(self) -> u32
        ensures value { result ≡ count self }
        ensures few { result ≤ self.of }
    {
        count_below(self.mask, self.of)
    }

    /// How many of its sets have a lower number than x: which of its own sets x is, if it has x.
    pub fn place(self, x: Set) -> u32
        requires { x.0 ≤ 12 }
        ensures value { result ≡ size x.0 (chosen self) }
        ensures few { result ≤ x.0 }
    {
        count_below(self.mask, u32::from(x.0))
    }

    /// The column of its sets alone.
    pub fn narrow(self, column: u32) -> u32
        ensures value { result ≡ narrow self column }
        ensures below { result < 2 ^ count self }
    {
        narrow_below(self.mask, self.of, column)
    }

    /// The least column of all sets that has this column of its own: no other set has the place.
    pub fn spread(self, column: u32) -> u32
        ensures value { result ≡ spread self column }
        ensures below { result < 2 ^ self.of }
    {
        spread_below(self.mask, self.of, column)
    }
}

// How many of the first `of` sets have their bit in the mask: one set at a time, the first of them
// and those behind it.
fn count_below(mask: u32, of: u32) -> u32
    ensures value { result ≡ size of (λ x. bit x mask) }
    ensures few { result ≤ of }
{
    if of == 0 {
        return 0;
    }
    let behind = count_below(mask / 2, of - 1);
    mask % 2 + behind
}

// The bits of a column of `of` sets that the mask has, moved together: the first set's bit, if the
// mask has it, goes below those of the sets behind it.
fn narrow_below(mask: u32, of: u32, column: u32) -> u32
    requires few { of ≤ 12 }
    ensures value { result ≡ extract of (λ x. bit x mask) column }
    ensures below { result < 2 ^ of }
{
    if of == 0 {
        return 0;
    }
    let behind = narrow_below(mask / 2, of - 1, column / 2);
    if mask % 2 == 1 {
        2 * behind + column % 2
    } else {
        behind
    }
}

// The bits of a column moved to those places below `of` that the mask has, all others 0: the lowest
// bit goes to the first set, if the mask has it, and those above it to the sets behind.
fn spread_below(mask: u32, of: u32, column: u32) -> u32
    requires few { of ≤ 12 }
    ensures value { result ≡ deposit of (λ x. bit x mask) column }
    ensures below { result < 2 ^ of }
{
    if of == 0 {
        return 0;
    }
    if mask % 2 == 1 {
        2 * spread_below(mask / 2, of - 1, column / 2) + column % 2
    } else {
        2 * spread_below(mask / 2, of - 1, column)
    }
}
