// A table over the columns of other sets.
//
// From the sets that one part mentions to those that two do, so that their product is one of two
// tables over the same columns; and from the sets of a part to those but the one that is left out.
// To more sets this is known as cylindrification.
ghost use Rattle.std.specs.Prelude.{◌≡◌, ℕ, ◌<◌, ◌≤◌, length, slice_index};
ghost use Rattle.selection.specs.Selections.{count};
ghost use Rattle.selection.specs.Recolumn.{Recolumned, Remapped};

use crate::map::fill;
use crate::selection::Selection;
use tables::cells::{Class, Table, WordTable};
use tables::sheet::Sheet;

// Writes row q: each column leads where the column on the map does.
// Invariant: the columns before j are written.
fn recolumn_row(t: Table, q: usize, map: &[u32], sheet: &mut Sheet)
    requires class { q < t.classes }
    requires few { t.classes ≤ sheet.old.shape.most }
    requires room { sheet.old.shape.width ≤ length map.now }
    requires below { (j : ℕ) → j < sheet.old.shape.width → slice_index map.now j < t.width }
    ensures { Remapped t.entry map.now q sheet.old.shape.width sheet.old sheet.new }
{
    for j in 0..sheet.shape.width as u32 {
        let Class(to) = t.next(Class(q as u32), map[j as usize]);
        sheet.put(q, j, to as usize);
    }
}

/// Writes the table, which is over the columns of the sets of `from`, over those of the sets of
/// `to` on the sheet: each column leads where the column of the sets of `from` does that agrees
/// with it in the sets of both, and has no other set.
/// `map` is scratch, a word for each column of the sheet. What sheet and map held before does not
/// matter.
// Invariant: the rows before q are written, and which of their classes accept.
pub fn recolumn(t: WordTable, from: Selection, to: Selection, map: &mut [u32], sheet: &mut Sheet)
    requires same { from.of ≡ to.of }
    requires from { t.sets ≡ count from }
    requires to { sheet.old.shape.sets ≡ count to }
    requires few { t.table.classes ≤ sheet.old.shape.most }
    requires map { sheet.old.shape.width ≤ length map.old }
    ensures { Recolumned t.entry from to sheet.old sheet.new }
{
    fill(from, to, map);
    for q in 0..t.table.classes {
        recolumn_row(t.table, q, map, sheet);
        sheet.mark(q, t.table.accepts(Class(q as u32)));
    }
}
