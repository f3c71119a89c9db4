// A search from a start on: what it finds is numbered, row by row and column by column, and its
// table is written.
//
// What has a number is also the queue of the search: rows are written in the order of the numbers
// until each has its row. Column by column of a row, what the column leads to is looked up, gets
// the next number if it has none, and the number is written into the row. What is searched, and how
// a thing is found again, is the business of a `Frontier`: the pairs of classes of a product, the
// sets of classes of a projection, what is left of a claim without parts.
//
// Invariant, at row i and column a (`Going`): the things with a number differ, each is reached by a
// word, and every cell before this one, row by row, holds the number of the thing to which it
// leads. So at the end all that is reached has its row; and where a further number is wanted while
// as many things as the sheet has room for have one, more things than that are reached.
ghost use Rattle.std.specs.Prelude.{◌≡◌, ℕ, ◌+◌, ◌^◌, ◌<◌, ◌≤◌, MatchOption};
ghost use Rattle.tables.specs.Cells.{accepts};
ghost use Rattle.worklist.specs.Search.{Memory, Begun, Ready, Inside, Followed, Going, Same, Advanced, Extended, Tabled, Excess};

use tables::sheet::Sheet;

/// An automaton, and a memory that numbers its things as they are found. A further kind of search
/// is one more impl.
pub trait Frontier {
    /// What is found.
    ghost Thing: { Type 0 };

    /// What of a thing its row needs at every column.
    type Origin: Copy;

    /// The automaton, and the thing with each number.
    ghost seen: { Self → Memory Thing };

    /// That this is what is needed of a thing.
    ghost Of: { Self.Origin → Thing → Type 0 };

    /// Numbers the start, and forgets what was there.
    fn begin(&mut self)
        requires { 0 < (seen self.old).room }
        ensures { Begun (seen self.old) (seen self.new) };

    /// What is needed of thing i, where m are numbered.
    fn open(&self, m: usize, i: usize) -> Self::Origin
        requires { Inside (seen self.now) m i }
        ensures { Of result ((seen self.now).at i) };

    /// The number of the thing to which column a leads from thing i, where m are numbered: m itself
    /// if it is new.
    fn follow(&mut self, m: usize, i: usize, origin: Self::Origin, a: u32) -> usize
        requires ready { Ready (seen self.old) m i a }
        requires origin { Of origin ((seen self.old).at i) }
        ensures { Followed (seen self.old) (seen self.new) m i a result };

    /// Whether thing i accepts, where m are numbered.
    fn accepts(&self, m: usize, i: usize) -> bool
        requires { Inside (seen self.now) m i }
        ensures { result ≡ (seen self.now).automaton.accepts ((seen self.now).at i) };

    /// A column that comes no later and leads wherever column a does.
    fn twin(&self, a: u32) -> u32
        ensures before { result ≤ a }
        ensures alike { (t : Thing) → (seen self.now).automaton.step t result ≡ (seen self.now).automaton.step t a }
    {
        a
    }
}

// Column a of row i: how many things are found then, or that they are too many.
fn column<F: Frontier>(
    f: &mut F,
    t: &mut Sheet,
    m: usize,
    i: usize,
    origin: F::Origin,
    a: u32,
) -> Option<usize>
    requires going { Going (F.seen f.old) t.old m i a }
    requires row { i < m }
    requires origin { F.Of origin ((F.seen f.old).at i) }
    requires column { a < t.old.shape.width }
    ensures { MatchOption result (Excess (F.seen f.old).automaton t.old.shape.most) (λ n. Extended (F.seen f.old) (F.seen f.new) t.old t.new m n i (a + 1)) }
{
    let b = f.twin(a);
    if b < a {
        let to = t.get(i, b);
        t.put(i, a, to);
        return Some(m);
    }
    let j = f.follow(m, i, origin, a);
    if j < m {
        t.put(i, a, j);
        return Some(m);
    }
    if m == t.shape.most {
        return None;
    }
    t.put(i, a, m);
    Some(m + 1)
}

// All columns of row i.
fn row<F: Frontier>(f: &mut F, t: &mut Sheet, m: usize, i: usize) -> Option<usize>
    requires going { Going (F.seen f.old) t.old m i 0 }
    requires row { i < m }
    ensures { MatchOption result (Excess (F.seen f.old).automaton t.old.shape.most) (λ n. Extended (F.seen f.old) (F.seen f.new) t.old t.new m n (i + 1) 0) }
{
    let origin = f.open(m, i);
    let mut n = m;
    for a in 0..t.shape.width as u32 {
        n = column(f, t, n, i, origin, a)?;
    }
    Some(n)
}

// All rows, from that of the start on.
fn rows<F: Frontier>(f: &mut F, t: &mut Sheet) -> Option<usize>
    requires sets { (F.seen f.old).automaton.sets ≡ t.old.shape.sets }
    requires some { 0 < t.old.shape.most }
    requires room { t.old.shape.most < (F.seen f.old).room }
    ensures { MatchOption result (Excess (F.seen f.old).automaton t.old.shape.most) (λ n. Advanced (F.seen f.old) (F.seen f.new) t.old t.new 1 n n 0) }
{
    f.begin();
    let mut n = 1;
    let mut i = 0;
    while i < n {
        n = row(f, t, n, i)?;
        i += 1;
    }
    Some(n)
}

// Writes which of the n things accept.
fn mark<F: Frontier>(f: &F, t: &mut Sheet, n: usize)
    requires holds { (F.seen f.now).Holds n }
    requires few { n ≤ t.old.shape.most }
    requires room { n ≤ (F.seen f.now).room }
    ensures rows { t.new.rows.now ≡ t.old.rows.now }
    ensures same { Same (F.seen f.now) (F.seen f.now) t.old t.new }
    ensures accepted { (j : ℕ) → j < n → accepts t.new.accept.now j ≡ (F.seen f.now).automaton.accepts ((F.seen f.now).at j) }
{
    for i in 0..n {
        t.mark(i, f.accepts(n, i));
    }
}

/// The table of the automaton's things that are reached, and how many they are; or that they are
/// more than the sheet has room for.
pub fn explore<F: Frontier>(f: &mut F, t: &mut Sheet) -> Option<usize>
    requires sets { (F.seen f.old).automaton.sets ≡ t.old.shape.sets }
    requires some { 0 < t.old.shape.most }
    requires room { t.old.shape.most < (F.seen f.old).room }
    ensures { MatchOption result (Excess (F.seen f.old).automaton t.old.shape.most) (Tabled (F.seen f.old).automaton t.old t.new) }
{
    let m = rows(f, t)?;
    mark(f, t, m);
    Some(m)
}
