// The classes of a table that are alike.
//
// Two classes are alike if no word tells them apart. They are found by splitting parts: the first
// parts are by acceptance, and a part is split where a column leads its classes into different
// parts.
// Tables of 16 classes and more are split by one part after the other, by the smaller half
// (Hopcroft 1971), where the scratch has room for the lists that this takes. Smaller ones are split
// in rounds (Moore 1956), which need no lists. Both find the same parts, and number them in the
// same way.
ghost use Rattle.std.specs.Prelude.{◌≡◌, ◌^◌, ◌<◌, ◌≤◌};
ghost use Rattle.minimize.specs.Join.{Alike};

use crate::halves::{join_by_splitting, splits};
use crate::memory::Parts;
use crate::rounds::join_by_rounds;
use tables::cells::WordTable;

/// Parts the classes into those that are alike: `cls` gets the part of each class, `firsts` the
/// first class of each part, and the number of parts is returned.
/// The parts are numbered in the order of their first classes, so class 0 is in part 0.
pub fn join(t: WordTable, parts: &mut Parts) -> usize
    requires some { 0 < t.table.classes }
    requires few { t.table.classes < 2 ^ 32 }
    requires room { t.table.classes ≤ parts.old.most }
    ensures alike { Alike t.entry parts.new.cls.now parts.new.firsts.now result }
    ensures most { parts.new.most ≡ parts.old.most }
{
    if splits(t.table, parts.index) {
        join_by_splitting(t, parts)
    } else {
        let (cls, firsts, anew) = (&mut *parts.cls, &mut *parts.firsts, &mut *parts.anew);
        let (lefts, rights, index) = (&mut *parts.lefts, &mut *parts.rights, &mut *parts.index);
        join_by_rounds(t, cls, firsts, anew, lefts, rights, index)
    }
}
