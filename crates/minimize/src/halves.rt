// Parts split by the smaller half, and numbered by their first classes.
ghost use Rattle.std.specs.Prelude.{◌≡◌, ◌+◌, ◌*◌, ◌^◌, ◌<◌, ◌≤◌, true, length};
ghost use Rattle.minimize.specs.Join.{Alike};

use crate::memory::Parts;
use crate::parts::{Column, copy, renumber};
use splitting::scratch::Scratch;
use splitting::split::split;
use tables::cells::{Table, WordTable};

// Whether the table is large, and so many words hold what splitting needs: two lists of its
// entries, and three words for each class.
pub fn splits(t: Table, index: &[u32]) -> bool
    ensures { result ≡ true → 2 * (t.entry.classes * t.entry.width) + 3 * t.entry.classes ≤ length index.now }
{
    t.classes >= 16 && index.len() >= 2 * (t.classes * t.width) + 3 * t.classes
}

// Parts the classes into those that are alike, as join does. The parts, numbered as they came, are
// numbered again by their first classes: by column 0, which splits none of them.
// Splitting writes the parts to cls, and takes as scratch, each of a word for a class: anew, lefts,
// rights and firsts, and what is cut from index: two lists of a word for each entry of the table,
// three words for each class, and the rest for the columns that repeat an earlier one, as many of
// them as fit.
pub fn join_by_splitting(t: WordTable, parts: &mut Parts) -> usize
    requires some { 0 < t.table.classes }
    requires few { t.table.classes < 2 ^ 32 }
    requires room { t.table.classes ≤ parts.old.most }
    requires lists { 2 * (t.table.classes * t.table.width) + 3 * t.table.classes ≤ length parts.old.index.now }
    ensures alike { Alike t.entry parts.new.cls.now parts.new.firsts.now result }
    ensures most { parts.new.most ≡ parts.old.most }
{
    let (cls, firsts, anew) = (&mut *parts.cls, &mut *parts.firsts, &mut *parts.anew);
    let (lefts, rights, index) = (&mut *parts.lefts, &mut *parts.rights, &mut *parts.index);
    let m = t.table.classes;
    let (heads, rest) = index.split_at_mut(m * t.table.width);
    let (links, rest) = rest.split_at_mut(m * t.table.width);
    let (cut, rest) = rest.split_at_mut(m);
    let (touched, rest) = rest.split_at_mut(m);
    let (members, repeats) = rest.split_at_mut(m);
    let mut scratch = Scratch {
        order: &mut *anew,
        place: &mut *lefts,
        begin: &mut *firsts,
        end: &mut *rights,
        cut,
        touched,
        members,
        heads,
        links,
        repeats,
    };
    split(t, cls, &mut scratch);
    copy(cls, m, anew);
    let column = Column {
        table: t.table,
        number: 0,
    };
    let count = renumber(column, cls, anew, firsts, lefts, rights, index);
    copy(anew, m, cls);
    count
}
