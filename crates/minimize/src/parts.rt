// Partitions of the classes of a table: by acceptance, and split by where one column leads.
ghost use Rattle.std.specs.Prelude.{◌≡◌, ℕ, ◌^◌, ◌<◌, ◌≤◌, length, slice_index};
ghost use Rattle.automata.specs.Product.{pair};
ghost use Rattle.tables.specs.Cells.{accepts, entry};
ghost use Rattle.tables.specs.View.{moves, accepting};
ghost use Rattle.minimize.specs.Pairs.{Room};
ghost use Rattle.minimize.specs.Parts.{Parted};

use crate::pairs::intern;
use tables::cells::{Class, Table};

// The first partition: the classes that accept, and those that do not. Class 0 is in part 0.
// Invariant: a class before q is in part 0 if it accepts as class 0 does and else in part 1, and
// firsts has the first class of each part that has one.
pub fn by_acceptance(t: Table, cls: &mut [u32], firsts: &mut [u32]) -> usize
    requires some { 0 < t.classes }
    requires few { t.classes < 2 ^ 32 }
    requires cls { t.classes ≤ length cls.old }
    requires firsts { t.classes ≤ length firsts.old }
    ensures { Parted t.entry.classes (accepting t.entry) (λ q. slice_index cls.new q) (λ i. slice_index firsts.new i) result }
{
    let start = t.accepts(Class(0));
    firsts[0] = 0;
    let mut count = 1;
    for q in 0..t.classes {
        if t.accepts(Class(q as u32)) == start {
            cls[q] = 0;
        } else {
            cls[q] = 1;
            if count == 1 {
                firsts[1] = q as u32;
                count = 2;
            }
        }
    }
    count
}

// A column of a table.
#[derive(Clone, Copy)]
pub struct Column<'a> {
    pub table: Table<'a>,
    pub number: u32,
    ghost within: { number < table.width },
}

// Splits the parts of `anew` by one column: classes stay together if they were in one part and the
// column leads them into one part of `cls`.
// The new number of a class is the number of its pair (its part in anew, the part in cls to which
// the column leads), the pairs numbered in the order of the classes.
// Invariant: the classes before q have the numbers of their pairs, the others their old parts. One
// pass over the classes, a constant number of steps each.
// Scratch: lefts and rights a word for each class, index a word for each pair of classes.
pub fn renumber(
    column: Column,
    cls: &[u32],
    anew: &mut [u32],
    firsts: &mut [u32],
    lefts: &mut [u32],
    rights: &mut [u32],
    index: &mut [u32],
) -> usize
    requires few { column.table.classes < 2 ^ 32 }
    requires cls { column.table.classes ≤ length cls.now }
    requires anew { column.table.classes ≤ length anew.old }
    requires firsts { column.table.classes ≤ length firsts.old }
    requires room { Room column.table.classes lefts.old rights.old index.old }
    requires cls_below { (q : ℕ) → q < column.table.classes → slice_index cls.now q < column.table.classes }
    requires anew_below { (q : ℕ) → q < column.table.classes → slice_index anew.old q < column.table.classes }
    ensures { Parted column.entry.table.classes
        (λ q. pair (slice_index anew.old q) (slice_index cls.now (moves column.entry.table q column.entry.number)))
        (λ q. slice_index anew.new q)
        (λ i. slice_index firsts.new i)
        result }
{
    let (t, a) = (column.table, column.number);
    let mut count = 0;
    for q in 0..t.classes {
        let to = t.next(Class(q as u32), a);
        let i = intern(
            lefts,
            rights,
            index,
            t.classes,
            count,
            anew[q],
            cls[to.0 as usize],
        );
        anew[q] = i;
        if i as usize == count {
            firsts[count] = q as u32;
            count += 1;
        }
    }
    count
}

// Copies a partition of the first n classes.
pub fn copy(from: &[u32], n: usize, to: &mut [u32])
    requires from { n ≤ length from.now }
    requires to { n ≤ length to.old }
    ensures { (q : ℕ) → q < n → slice_index to.new q ≡ slice_index from.now q }
{
    to[..n].copy_from_slice(&from[..n]);
}
