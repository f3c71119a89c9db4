// A table that is being written, in lent memory.
ghost use Rattle.std.specs.Prelude.{◌≡◌, ℕ, ◌*◌, ◌^◌, ◌<◌, ◌≤◌, length};
ghost use Rattle.tables.specs.Cells.{entry, put_entry, accepts};

use crate::cells::{Class, Table, WordTable, get, put};

/// How large a table may become: it has a column for each of the 2^sets columns of a word over
/// `sets` sets, and at most `most` classes.
#[derive(Clone, Copy)]
pub struct Shape {
    pub most: usize,
    pub sets: u32,
    pub width: usize,
    ghost wide: { width ≡ 2 ^ sets },
    ghost narrow: { sets ≤ 12 },
    ghost columns: { (0 < width) × (width ≤ 4096) },
    ghost few: { most < 2 ^ 32 },
}

impl Shape {
    /// The shape of tables of at most `most` classes over words of `sets` sets.
    pub fn new(most: usize, sets: u32) -> Shape
        requires sets { sets ≤ 12 }
        requires few { most < 2 ^ 32 }
        ensures most { result.most ≡ most }
        ensures sets { result.sets ≡ sets }
    {
        Shape {
            most,
            sets,
            width: 1usize << sets,
        }
    }
}

/// Memory for the rows of a table of that shape, and for which classes accept. What it held before
/// does not matter.
#[derive(Drop)]
pub struct Sheet<'a> {
    pub rows: &'a mut [u32],
    pub accept: &'a mut [u32],
    pub shape: Shape,
    ghost rows_fit: { shape.most * shape.width ≤ length rows.now },
    ghost accept_fits: { shape.most ≤ length accept.now },
}

impl Sheet<'_> {
    ghost use Rattle.tables.specs.Sheets.{Shows};

    /// The class to which column a leads from class q.
    pub fn get(&self, q: usize, a: u32) -> usize
        requires class { q < self.now.shape.most }
        requires column { a < self.now.shape.width }
        ensures { result ≡ entry self.now.rows.now self.now.shape.width q a }
    {
        let Class(to) = get(
            self.rows,
            self.shape.most,
            self.shape.width,
            Class(q as u32),
            a,
        );
        to as usize
    }

    /// Writes the class to which column a leads from class q.
    pub fn put(&mut self, q: usize, a: u32, to: usize)
        requires class { q < self.old.shape.most }
        requires column { a < self.old.shape.width }
        requires to { to < self.old.shape.most }
        ensures rows { self.new.rows.now ≡ put_entry self.old.rows.now self.old.shape.width q a to }
        ensures accept { self.new.accept.now ≡ self.old.accept.now }
        ensures shape { self.new.shape ≡ self.old.shape }
        ensures same_rows { self.new.rows.ghost_name ≡ self.old.rows.ghost_name }
        ensures same_accept { self.new.accept.ghost_name ≡ self.old.accept.ghost_name }
    {
        let rows = &mut *self.rows;
        put(
            rows,
            self.shape.most,
            self.shape.width,
            Class(q as u32),
            a,
            Class(to as u32),
        );
    }

    /// Writes whether class q accepts.
    pub fn mark(&mut self, q: usize, accepted: bool)
        requires { q < self.old.shape.most }
        ensures marked { accepts self.new.accept.now q ≡ accepted }
        ensures others { (p : ℕ) → p < q → accepts self.new.accept.now p ≡ accepts self.old.accept.now p }
        ensures rows { self.new.rows.now ≡ self.old.rows.now }
        ensures shape { self.new.shape ≡ self.old.shape }
        ensures same_rows { self.new.rows.ghost_name ≡ self.old.rows.ghost_name }
        ensures same_accept { self.new.accept.ghost_name ≡ self.old.accept.ghost_name }
    {
        self.accept[q] = u32::from(accepted);
    }

    /// The table of the first classes, to be read.
    pub fn table(&self, classes: usize) -> WordTable<'_>
        requires few { classes ≤ self.now.shape.most }
        requires below { (q a : ℕ) → q < classes → a < self.now.shape.width → entry self.now.rows.now self.now.shape.width q a < classes }
        ensures { Shows self.now classes result }
    {
        WordTable {
            table: Table {
                rows: self.rows,
                accept: self.accept,
                classes,
                width: self.shape.width,
            },
            sets: self.shape.sets,
        }
    }
}
