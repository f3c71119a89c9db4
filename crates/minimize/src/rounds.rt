// Parts split in rounds: in each by every column, one after the other, but for those that lead
// every class where an earlier one does.
//
// A round splits `cls` by every column, one after the other, into `anew`: after the columns before
// j, classes are together in anew exactly if they are together in cls and each of these columns
// leads them into one part of cls.
// Never does a round part classes that are alike, since what a column makes of them is alike too. A
// round that has made no part more has changed nothing: then every column leads each part into one
// part, and so classes of one part are alike.
// Every other round has made a part more, so there are at most as many rounds as classes, and each
// takes as many steps as the table has entries: no two classes are ever compared.
ghost use Rattle.std.specs.Prelude.{◌^◌, ◌<◌, ◌≤◌, length};
ghost use Rattle.minimize.specs.Join.{Alike};
ghost use Rattle.minimize.specs.Pairs.{Room};

use crate::parts::{Column, by_acceptance, copy, renumber};
use splitting::repeats::{is_marked, mark_repeats};
use tables::cells::WordTable;

// Parts the classes into those that are alike, as join does, which few rounds do fast.
// What index holds beyond the pairs of classes marks columns that repeat an earlier one, as many of
// them as fit.
// Invariant of the rounds: anew is cls, it never parts classes that are alike, and classes of one
// part accept alike. Of the columns: the same of anew, which is cls split by the columns so far.
// The rounds are left where one has changed nothing, or as soon as every class is alone.
pub fn join_by_rounds(
    t: WordTable,
    cls: &mut [u32],
    firsts: &mut [u32],
    anew: &mut [u32],
    lefts: &mut [u32],
    rights: &mut [u32],
    index: &mut [u32],
) -> usize
    requires some { 0 < t.table.classes }
    requires few { t.table.classes < 2 ^ 32 }
    requires cls { t.table.classes ≤ length cls.old }
    requires firsts { t.table.classes ≤ length firsts.old }
    requires anew { t.table.classes ≤ length anew.old }
    requires room { Room t.table.classes lefts.old rights.old index.old }
    ensures { Alike t.entry cls.new firsts.new result }
{
    let (pairs, repeats) = index.split_at_mut(t.table.classes * t.table.classes);
    mark_repeats(t, repeats);
    let mut count = by_acceptance(t.table, cls, firsts);
    copy(cls, t.table.classes, anew);
    'refine: loop {
        let before = count;
        for number in 0..t.table.width as u32 {
            if is_marked(repeats, number) {
                continue;
            }
            let column = Column {
                table: t.table,
                number,
            };
            count = renumber(column, cls, anew, firsts, lefts, rights, pairs);
            if count == t.table.classes {
                break 'refine;
            }
        }
        if count == before {
            break 'refine;
        }
        copy(anew, t.table.classes, cls);
    }
    copy(anew, t.table.classes, cls);
    count
}
