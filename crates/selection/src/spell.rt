// Words of columns of some sets, in columns of all sets.
ghost use Rattle.std.specs.Prelude.{◌≡◌, length};
ghost use Rattle.narrowing.specs.Columns.{each};
ghost use Rattle.selection.specs.Selections.{spread};

use crate::selection::Selection;

/// Writes each column of the selection's sets as the least column of all sets that has it.
pub fn spell(sets: Selection, word: &mut [u32])
    ensures { word.new ≡ each (spread sets) word.old }
{
    for i in 0..word.len() {
        word[i] = sets.spread(word[i]);
    }
}
