// What is projected.
ghost use Rattle.std.specs.Prelude.{◌*◌, ◌^◌, ◌<◌, ◌≤◌, length};

use tables::cells::WordTable;
use words::bits::Set;

/// A table and its dead class, if there is one; the set x that is left out of the columns; and the
/// classes that are completed beyond the end of a word, by 1.
/// A set of its classes takes w words.
#[derive(Clone, Copy)]
pub struct Projection<'a, 'b> {
    pub t: WordTable<'a>,
    pub x: Set,
    pub dead: Option<usize>,
    pub completed: &'b [u32],
    pub w: usize,
    ghost bound: { x.0 < t.sets },
    ghost some: { 0 < t.table.classes },
    ghost few: { t.table.classes < 2 ^ 32 },
    ghost words: { t.table.classes ≤ 32 * w },
    ghost short: { w ≤ t.table.classes },
    ghost completed_fits: { t.table.classes ≤ length completed.now },
}
