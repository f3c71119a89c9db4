// Which classes are completed beyond the end of a word: further columns, in which at most set x has
// places, lead from them to a class that accepts.
//
// They are found from the accepting classes back. For each of the two columns, without and with x,
// the classes that go by it to class r are kept as a linked list: heads[r] stands for the last of
// them, links[q] for the one before q, where q + 1 stands for class q and 0 ends the list, so that
// the numbers fall along a list. Classes that are completed are marked, and queued as they are
// marked, each once.
// Of each class in the queue all that go to it in one step are marked. Once that is done for the
// whole queue, the marked classes hold the accepting ones and all from which a marked one is
// reached, and no others: those are the completed ones.
ghost use Rattle.std.specs.Prelude.{◌≡◌, ℕ, ◌+◌, ◌*◌, ◌^◌, ◌<◌, ◌≤◌, true, ◌↔◌, length, slice_index};
ghost use Rattle.words.specs.Bits.{put_bit};
ghost use Rattle.automata.specs.Subsets.{Completes};
ghost use Rattle.tables.specs.Cells.{accepts};
ghost use Rattle.tables.specs.View.{moves, accepting};
ghost use Rattle.live.specs.Beyond.{Comers, Queued, Grown, Marking, by_column};

use tables::cells::{Class, Table, WordTable};
use words::bits::{Set, with_bit};

// For one column, the classes that go by it to each class, as linked lists.
#[derive(Clone, Copy)]
struct Lists<'a> {
    heads: &'a [u32],
    links: &'a [u32],
}

// A table, and the classes that come to each of its classes by the two columns: the one in which no
// set has a place, and the one in which x alone has it.
#[derive(Clone, Copy)]
struct Behind<'a, 'b> {
    table: Table<'a>,
    x: Set,
    with_x: u32,
    without: Lists<'b>,
    with: Lists<'b>,
    ghost column: { with_x ≡ put_bit x.0 true 0 },
    ghost comers_without: { Comers table.classes table.classes (by_column table.rows.now table.width 0) without.heads.now without.links.now },
    ghost comers_with: { Comers table.classes table.classes (by_column table.rows.now table.width with_x) with.heads.now with.links.now },
}

/// Memory for the lists of the two columns and for the queue, each with a word for each of `most`
/// classes. What it held before does not matter.
#[derive(Drop)]
pub struct Backward<'m> {
    pub most: usize,
    pub heads0: &'m mut [u32],
    pub links0: &'m mut [u32],
    pub heads1: &'m mut [u32],
    pub links1: &'m mut [u32],
    pub queue: &'m mut [u32],
    ghost heads0_fit: { most ≤ length heads0.now },
    ghost links0_fit: { most ≤ length links0.now },
    ghost heads1_fit: { most ≤ length heads1.now },
    ghost links1_fit: { most ≤ length links1.now },
    ghost queue_fits: { most ≤ length queue.now },
}

impl Backward<'_> {
    /// Cuts five words for each class.
    pub fn cut(most: usize, scratch: &mut [u32]) -> Backward<'_>
        requires few { most < 2 ^ 32 }
        requires scratch { 5 * most ≤ length scratch.old }
        ensures { result.most ≡ most }
    {
        let (heads0, rest) = scratch.split_at_mut(most);
        let (links0, rest) = rest.split_at_mut(most);
        let (heads1, rest) = rest.split_at_mut(most);
        let (links1, rest) = rest.split_at_mut(most);
        let (queue, _) = rest.split_at_mut(most);
        Backward {
            most,
            heads0,
            links0,
            heads1,
            links1,
            queue,
        }
    }
}

// Clears the first n words.
fn clear(words: &mut [u32], n: usize)
    requires { n ≤ length words.old }
    ensures { (i : ℕ) → i < n → slice_index words.new i ≡ 0 }
{
    for i in 0..n {
        words[i] = 0;
    }
}

// Lists, for each class, the classes that go to it by column a. Classes are put in rising, each
// before those that its list has.
fn comers(t: Table, a: u32, heads: &mut [u32], links: &mut [u32])
    requires few { t.classes < 2 ^ 32 }
    requires column { a < t.width }
    requires heads { t.classes ≤ length heads.old }
    requires links { t.classes ≤ length links.old }
    ensures { Comers t.entry.classes t.entry.classes (by_column t.entry.rows.now t.entry.width a) heads.new links.new }
{
    clear(heads, t.classes);
    for q in 0..t.classes {
        let r = t.next(Class(q as u32), a).0 as usize;
        links[q] = heads[r];
        heads[r] = q as u32 + 1;
    }
}

// Marks class q and puts it into the queue, if it is not marked yet. The queue's new tail.
fn mark(classes: usize, q: Class, marks: &mut [u32], queue: &mut [u32], tail: usize) -> usize
    requires class { q.0 < classes }
    requires queued { Queued classes marks.old queue.old tail }
    ensures { Grown classes (λ p. p ≡ q.0) marks.old queue.old tail marks.new queue.new result }
{
    if marks[q.0 as usize] == 1 {
        return tail;
    }
    marks[q.0 as usize] = 1;
    queue[tail] = q.0;
    tail + 1
}

// Marks all classes on the list of class r, which go to it by column a. The queue's new tail.
fn mark_comers(
    t: Table,
    a: u32,
    lists: Lists,
    r: Class,
    marks: &mut [u32],
    queue: &mut [u32],
    tail: usize,
) -> usize
    requires class { r.0 < t.classes }
    requires comers { Comers t.classes t.classes (by_column t.rows.now t.width a) lists.heads.now lists.links.now }
    requires queued { Queued t.classes marks.old queue.old tail }
    ensures { Grown t.entry.classes (λ p. by_column t.entry.rows.now t.entry.width a p ≡ r.0) marks.old queue.old tail marks.new queue.new result }
{
    let to = r.0;
    let mut last = tail;
    let mut e = lists.heads[to as usize];
    while e > 0 {
        last = mark(t.classes, Class(e - 1), marks, queue, last);
        e = lists.links[(e - 1) as usize];
    }
    last
}

// Marks the accepting classes, in memory with any contents, and puts them into the queue. The
// queue's tail.
fn mark_accepting(t: Table, marks: &mut [u32], queue: &mut [u32]) -> usize
    requires few { t.classes < 2 ^ 32 }
    requires marks { t.classes ≤ length marks.old }
    requires queue { t.classes ≤ length queue.old }
    ensures queued { Queued t.entry.classes marks.new queue.new result }
    ensures accepting { (q : ℕ) → q < t.entry.classes → accepts marks.new q ≡ accepting t.entry q }
{
    clear(marks, t.classes);
    let mut tail = 0;
    for q in 0..t.classes {
        if t.accepts(Class(q as u32)) {
            tail = mark(t.classes, Class(q as u32), marks, queue, tail);
        }
    }
    tail
}

// The column in which set x alone has the place.
fn lone(x: Set, sets: u32) -> u32
    requires set { x.0 < sets }
    requires narrow { sets ≤ 12 }
    ensures value { result ≡ put_bit x.0 true 0 }
    ensures below { result < 2 ^ sets }
{
    with_bit(0, x)
}

// Marks all classes that go by a column without or with x to the class at place i of the queue. The
// queue's new tail.
fn mark_behind(behind: Behind, marks: &mut [u32], queue: &mut [u32], tail: usize, i: usize) -> usize
    requires place { i < tail }
    requires marking { Marking behind.x.0 behind.table.classes (moves behind.table) (accepting behind.table) marks.old queue.old tail i }
    ensures { Marking behind.entry.x.0 behind.entry.table.classes (moves behind.entry.table) (accepting behind.entry.table) marks.new queue.new result (i + 1) }
{
    let t = behind.table;
    let r = Class(queue[i]);
    let more = mark_comers(t, 0, behind.without, r, marks, queue, tail);
    mark_comers(t, behind.with_x, behind.with, r, marks, queue, more)
}

/// Marks in `completed`, by 1, each class that is completed by columns in which at most set x has a
/// place; those that are not have other numbers.
/// What `completed` held before does not matter.
pub fn beyond(t: WordTable, x: Set, completed: &mut [u32], backward: &mut Backward)
    requires few { t.table.classes < 2 ^ 32 }
    requires set { x.0 < t.sets }
    requires completed { t.table.classes ≤ length completed.old }
    requires room { t.table.classes ≤ backward.old.most }
    ensures { (q : ℕ) → q < t.entry.table.classes → (accepts completed.new q ≡ true) ↔ Completes x.0 (moves t.entry.table) (accepting t.entry.table) q }
{
    let (heads0, links0) = (&mut *backward.heads0, &mut *backward.links0);
    let (heads1, links1) = (&mut *backward.heads1, &mut *backward.links1);
    let queue = &mut *backward.queue;
    let with_x = lone(x, t.sets);
    comers(t.table, 0, heads0, links0);
    comers(t.table, with_x, heads1, links1);
    let behind = Behind {
        table: t.table,
        x,
        with_x,
        without: Lists {
            heads: heads0,
            links: links0,
        },
        with: Lists {
            heads: heads1,
            links: links1,
        },
    };
    let mut tail = mark_accepting(t.table, completed, queue);
    let mut i = 0;
    while i < tail {
        tail = mark_behind(behind, completed, queue, tail, i);
        i += 1;
    }
}
