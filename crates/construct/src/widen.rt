// A part's table over the columns of more sets.
ghost use Rattle.std.specs.Prelude.{◌≡◌, ℕ, ◌^◌, ◌<◌, ◌≤◌, true, length};
ghost use Rattle.selection.specs.Selections.{chosen, count};
ghost use Rattle.construct.specs.Widen.{Widened};

use selection::recolumn::recolumn;
use selection::selection::Selection;
use tables::cells::WordTable;
use tables::sheet::Sheet;

/// The table over the columns of the sets of `to`, among which those of `from` are: itself where
/// they are the same, or else as it is written on the sheet. Scratch is a word for each column of
/// the sheet. What sheet and scratch held before does not matter.
pub fn widen<'a>(
    t: WordTable<'a>,
    from: Selection,
    to: Selection,
    scratch: &mut [u32],
    sheet: &'a mut Sheet<'_>,
) -> WordTable<'a>
    requires same { from.of ≡ to.of }
    requires among { (x : ℕ) → chosen from x ≡ true → chosen to x ≡ true }
    requires from { t.sets ≡ count from }
    requires to { sheet.old.shape.sets ≡ count to }
    requires few { t.table.classes ≤ sheet.old.shape.most }
    requires scratch { sheet.old.shape.width ≤ length scratch.old }
    ensures { Widened t.entry from to result }
{
    if from.mask == to.mask {
        return t;
    }
    recolumn(t, from, to, scratch, sheet);
    sheet.table(t.table.classes)
}
