// Classes marked: those of a part that are marked stand at its begin, before its `cut`.
ghost use Rattle.std.specs.Prelude.{◌≡◌, ℕ, ◌^◌, ◌<◌, ◌≤◌, true, length, slice_index};
ghost use Rattle.tables.specs.View.{moves, accepting};
ghost use Rattle.splitting.specs.Lent.{Stand, AreTouched, AlsoMarked};

use crate::comers::Column;
use crate::places::{Marks, Parting, Places, swap};
use tables::cells::{Class, Table, get};

// The part by which others are split: its classes, copied, since it may be split itself.
#[derive(Clone, Copy)]
pub struct Splitter<'a> {
    pub members: &'a [u32],
    pub size: usize,
    ghost fits: { size ≤ length members.now },
}

// Marks class p, if it is not marked yet: it changes places with the first class of its part that
// is not. A part of which no class was marked is put at the tail of `touched`; the new tail.
fn mark(
    classes: usize,
    p: Class,
    places: &mut Places,
    parting: &Parting,
    marks: &mut Marks,
    tail: usize,
) -> usize
    requires class { p.0 < classes }
    requires few { classes < 2 ^ 32 }
    requires arranged { Stand classes places.old parting.now marks.old.cut.now }
    requires touched { AreTouched classes parting.now marks.old tail }
    ensures { AlsoMarked classes (λ q. q ≡ p.0) parting.now places.old marks.old places.new marks.new result }
{
    let c = parting.part[p.0 as usize] as usize;
    let at = marks.cut[c];
    if places.place[p.0 as usize] < at {
        return tail;
    }
    let q = Class(places.order[at as usize]);
    swap(classes, p, q, places);
    marks.cut[c] = at + 1;
    if at == parting.begin[c] {
        marks.touched[tail] = c as u32;
        tail + 1
    } else {
        tail
    }
}

// Marks the classes that the column leads to class r.
// Invariant: those on the list of r from e on are marked.
fn mark_comers(
    column: Column,
    r: Class,
    places: &mut Places,
    parting: &Parting,
    marks: &mut Marks,
    tail: usize,
) -> usize
    requires class { r.0 < column.table.classes }
    requires arranged { Stand column.table.classes places.old parting.now marks.old.cut.now }
    requires touched { AreTouched column.table.classes parting.now marks.old tail }
    ensures { AlsoMarked column.entry.table.classes (λ q. moves column.entry.table q column.entry.number ≡ r.0) parting.now places.old marks.old places.new marks.new result }
{
    let t = column.table;
    let a = column.number;
    let to = r.0;
    let mut last = tail;
    let mut e = get(column.heads, t.classes, t.width, r, a).0;
    while e > 0 {
        last = mark(t.classes, Class(e - 1), places, parting, marks, last);
        e = get(column.links, t.classes, t.width, Class(e - 1), a).0;
    }
    last
}

// Marks the classes that the column leads to a class of the splitter.
// Invariant: those that go to one before place i of it are marked.
pub fn mark_column(
    column: Column,
    splitter: Splitter,
    places: &mut Places,
    parting: &Parting,
    marks: &mut Marks,
) -> usize
    requires members { (i : ℕ) → i < splitter.size → slice_index splitter.members.now i < column.table.classes }
    requires arranged { Stand column.table.classes places.old parting.now marks.old.cut.now }
    requires touched { AreTouched column.table.classes parting.now marks.old 0 }
    ensures { AlsoMarked column.entry.table.classes (λ q. (i : ℕ) × (i < splitter.entry.size) × (slice_index splitter.entry.members.now i ≡ moves column.entry.table q column.entry.number)) parting.now places.old marks.old places.new marks.new result }
{
    let mut tail = 0;
    for i in 0..splitter.size {
        let r = Class(splitter.members[i]);
        tail = mark_comers(column, r, places, parting, marks, tail);
    }
    tail
}

// Marks the classes that accept.
// Invariant: those before q are marked.
pub fn mark_accepting(t: Table, places: &mut Places, parting: &Parting, marks: &mut Marks) -> usize
    requires few { t.classes < 2 ^ 32 }
    requires arranged { Stand t.classes places.old parting.now marks.old.cut.now }
    requires touched { AreTouched t.classes parting.now marks.old 0 }
    ensures { AlsoMarked t.entry.classes (λ q. accepting t.entry q ≡ true) parting.now places.old marks.old places.new marks.new result }
{
    let mut tail = 0;
    for q in 0..t.classes {
        let class = Class(q as u32);
        if t.accepts(class) {
            tail = mark(t.classes, class, places, parting, marks, tail);
        }
    }
    tail
}
