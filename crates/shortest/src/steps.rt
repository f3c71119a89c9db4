// The last steps of the first words of a table's classes, which are numbered in the order of these
// words.
// Row by row, columns rising, a class is met first at the cell by which its first word ends, and
// the next class that is met is always the next number. So one pass finds, for each class, the
// class before and the column; nothing is cleared before it.
// Invariant, at column a of row i: the cells before lead to the classes noted, and prev and via
// have the last steps of the first words of these.
ghost use Rattle.std.specs.Prelude.{◌≡◌, ℕ, ◌^◌, ◌<◌, ◌≤◌, length, slice_index};
ghost use Rattle.words.specs.Words.{Word};
ghost use Rattle.automata.specs.Search.{Ordered, Ranked};
ghost use Rattle.tables.specs.View.{moves};
ghost use Rattle.shortest.specs.Spell.{word};

use tables::cells::{Class, WordTable};

/// Notes for each class, from class 1 on, the class from which it is met first, a lower one, and
/// the column that leads there, until class `last` is noted; how many classes are noted, with class
/// 0.
/// Of a table whose classes are in order all up to `last` are, and these are the last steps of
/// their first words.
pub fn steps(t: WordTable, last: usize, prev: &mut [u32], via: &mut [u32]) -> usize
    requires some { 0 < t.table.classes }
    requires few { t.table.classes < 2 ^ 32 }
    requires prev { t.table.classes ≤ length prev.old }
    requires via { t.table.classes ≤ length via.old }
    ensures within { result ≤ t.entry.table.classes }
    ensures falls { (j : ℕ) → 0 < j → j < result → slice_index prev.new j < j }
    ensures noted { Ordered t.entry.sets t.entry.table.classes (moves t.entry.table) → last < t.entry.table.classes → last < result }
    ensures words { (ws : ℕ → Word) → Ranked t.entry.sets t.entry.table.classes (moves t.entry.table) ws → (j : ℕ) → j < result → word prev.new via.new j ≡ ws j }
{
    let mut count = 1;
    let mut i = 0;
    while i < count && count <= last {
        for a in 0..t.table.width as u32 {
            let Class(to) = t.table.next(Class(i as u32), a);
            if to as usize == count {
                prev[count] = i as u32;
                via[count] = a;
                count += 1;
            }
        }
        i += 1;
    }
    count
}
