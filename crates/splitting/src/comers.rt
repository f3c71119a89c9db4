// For each class and column the classes that go to it by that column, as a linked list.
//
// The head of class r and column a stands for the last of the classes that go to r by a, the link
// of class q and column a for the one before q on its list, where q + 1 stands for class q and 0
// ends the list: so the numbers fall along a list.
ghost use Rattle.std.specs.Prelude.{◌≡◌, ℕ, ◌+◌, ◌*◌, ◌^◌, ◌<◌, ◌≤◌, ◌≢◌, length, slice_index};
ghost use Rattle.tables.specs.Cells.{entry, put_entry};
ghost use Rattle.tables.specs.View.{moves};
ghost use Rattle.splitting.specs.Comers.{Comers, Listed};

use crate::repeats::is_marked;
use tables::cells::{Class, Table, WordTable, get, put};

// One column of a table, with the lists of who comes to each class.
#[derive(Clone, Copy)]
pub struct Column<'a> {
    pub table: Table<'a>,
    pub number: u32,
    pub heads: &'a [u32],
    pub links: &'a [u32],
    ghost few: { table.classes < 2 ^ 32 },
    ghost within: { number < table.width },
    ghost heads_fit: { table.classes * table.width ≤ length heads.now },
    ghost links_fit: { table.classes * table.width ≤ length links.now },
    ghost listed: { Comers table.classes table.classes (λ q. moves table q number) (λ r. entry heads.now table.width r number) (λ q. entry links.now table.width q number) },
}

// A table with its columns that repeat an earlier one, marked, and the lists of who comes to each
// class by the others.
#[derive(Clone, Copy)]
pub struct Lists<'a> {
    pub table: WordTable<'a>,
    pub repeats: &'a [u32],
    pub heads: &'a [u32],
    pub links: &'a [u32],
    ghost few: { table.table.classes < 2 ^ 32 },
    ghost heads_fit: { table.table.classes * table.table.width ≤ length heads.now },
    ghost links_fit: { table.table.classes * table.table.width ≤ length links.now },
    ghost listed: { (a : ℕ) → a < table.table.width → slice_index repeats.now a ≢ 1 → Comers table.table.classes table.table.classes (λ q. moves table.table q a) (λ r. entry heads.now table.table.width r a) (λ q. entry links.now table.table.width q a) },
}

// Clears the first n words.
fn clear(words: &mut [u32], n: usize)
    requires { n ≤ length words.old }
    ensures { (i : ℕ) → i < n → slice_index words.new i ≡ 0 }
{
    for i in 0..n {
        words[i] = 0;
    }
}

// Puts class q before the list of the class to which it goes by column a.
fn list_entry(t: Table, q: Class, a: u32, heads: &mut [u32], links: &mut [u32])
    requires few { t.classes < 2 ^ 32 }
    requires class { q.0 < t.classes }
    requires column { a < t.width }
    requires heads { t.classes * t.width ≤ length heads.old }
    requires links { t.classes * t.width ≤ length links.old }
    ensures heads { heads.new ≡ put_entry heads.old t.entry.width (moves t.entry q.0 a) a (q.0 + 1) }
    ensures links { links.new ≡ put_entry links.old t.entry.width q.0 a (entry heads.old t.entry.width (moves t.entry q.0 a) a) }
{
    let r = t.next(q, a);
    let last = get(heads, t.classes, t.width, r, a);
    put(links, t.classes, t.width, q, a, last);
    put(heads, t.classes, t.width, r, a, Class(q.0 + 1));
}

// Puts class q before the lists of the classes to which it goes, by the columns that are not
// marked.
// Invariant: it is on those of the columns before a.
fn list_class(t: Table, q: Class, repeats: &[u32], heads: &mut [u32], links: &mut [u32])
    requires few { t.classes < 2 ^ 32 }
    requires narrow { t.width < 2 ^ 32 }
    requires class { q.0 < t.classes }
    requires heads { t.classes * t.width ≤ length heads.old }
    requires links { t.classes * t.width ≤ length links.old }
    requires before { Listed t.classes t.width (moves t) repeats.now heads.old links.old q.0 0 }
    ensures { Listed t.entry.classes t.entry.width (moves t.entry) repeats.now heads.new links.new q.0 t.entry.width }
{
    for a in 0..t.width as u32 {
        if !is_marked(repeats, a) {
            list_entry(t, q, a, heads, links);
        }
    }
}

// Lists all classes, rising, by the columns that are not marked.
pub fn list_comers(t: Table, repeats: &[u32], heads: &mut [u32], links: &mut [u32])
    requires few { t.classes < 2 ^ 32 }
    requires narrow { t.width < 2 ^ 32 }
    requires heads { t.classes * t.width ≤ length heads.old }
    requires links { t.classes * t.width ≤ length links.old }
    ensures { (a : ℕ) → a < t.entry.width → slice_index repeats.now a ≢ 1 → Comers t.entry.classes t.entry.classes (λ q. moves t.entry q a) (λ r. entry heads.new t.entry.width r a) (λ q. entry links.new t.entry.width q a) }
{
    clear(heads, t.classes * t.width);
    for q in 0..t.classes {
        list_class(t, Class(q as u32), repeats, heads, links);
    }
}
