// The subset construction: the sets of live classes that are reached when, column by column, both
// values of bit x are allowed.
//
// A search from the set of the start on finds them (`worklist::explore`). A set is a row of bits;
// the set that follows is written behind the last one, is looked for among those that were found by
// hashing, and stays there if it is new. A column with bit x leads wherever the column without it
// leads, so its cell is copied (`twin`), and no set is worked out twice.
ghost use Rattle.std.specs.Prelude.{◌≡◌, ℕ, ◌+◌, ◌*◌, ◌<◌, ◌≤◌, false, Bool, length, MatchOption};
ghost use Rattle.words.specs.Words.{bit};
ghost use Rattle.worklist.specs.Search.{Tabled, Excess};
ghost use Rattle.bitsets.specs.Bitrows.{row_at, member, Below};
ghost use Rattle.project.specs.Subsets.{step_of, start_of, projected, sets_of};

use crate::memory::Sets;
use crate::projection::Projection;
use crate::successors::{follow, put_live};
use bitsets::bitrows::{clear, meets};
use bitsets::intern::intern;
use tables::cells::Class;
use tables::sheet::Sheet;
use words::bits::{with_bit, without_bit};
use worklist::explore::{Frontier, explore};

// Writes the start, the set of class 0 if that is live, into row 0.
fn start_set(p: &Projection, sets: &mut [u32])
    requires room { p.now.w ≤ length sets.old }
    ensures { member sets.new p.now.w 0 ≡ start_of p.now }
{
    let row = &mut sets[0..p.w];
    clear(row);
    put_live(row, Class(0), p.dead);
}

// Writes the set that follows set i at column a, a column without bit x, into row n.
fn next_set(p: &Projection, sets: &mut [u32], n: usize, i: usize, a: u32)
    requires inside { Below p.now.t.table.classes (member sets.old p.now.w i) }
    requires order { i < n }
    requires room { n * p.now.w + p.now.w ≤ length sets.old }
    requires column { a < p.now.t.table.width }
    requires without { bit p.now.x.0 a ≡ false }
    ensures made { member sets.new p.now.w n ≡ step_of p.now (member sets.old p.now.w i) a }
    ensures kept { (j : ℕ) → j < n → row_at sets.new p.now.w j ≡ row_at sets.old p.now.w j }
{
    let b = with_bit(a, p.x);
    follow(p, sets, i, n, a, b);
}

impl Frontier for Sets<'_, '_, '_> {
    ghost Thing = { ℕ → Bool };

    // A set is read where it stands.
    type Origin = ();

    ghost seen = { sets_of };

    ghost Of = { λ _ _. Unit {0} };

    fn begin(&mut self) {
        let p = self.part;
        let (sets, heads) = (&mut *self.sets, &mut *self.heads);
        let (links, buckets) = (&mut *self.links, &mut *self.buckets);
        start_set(&p, sets);
        let _ = intern(sets, p.w, 0, heads, links, buckets);
    }

    fn open(&self, _m: usize, _i: usize) {}

    fn follow(&mut self, m: usize, i: usize, _origin: (), a: u32) -> usize {
        let p = self.part;
        let (sets, heads) = (&mut *self.sets, &mut *self.heads);
        let (links, buckets) = (&mut *self.links, &mut *self.buckets);
        next_set(&p, sets, m, i, without_bit(a, p.x));
        match intern(sets, p.w, m, heads, links, buckets) {
            Some(j) => j,
            None => m,
        }
    }

    fn accepts(&self, _m: usize, i: usize) -> bool {
        let p = self.part;
        let from = i * p.w;
        meets(&self.sets[from..from + p.w], p.completed)
    }

    // Whether a column has bit x makes no difference.
    fn twin(&self, a: u32) -> u32 {
        without_bit(a, self.part.x)
    }
}

/// The table of the sets that are reached, written on the sheet: how many they are, or that they
/// are more than the sheet has room for.
/// `sets` needs room for as many. What sheet and sets held before does not matter.
pub fn subsets(sets: &mut Sets, sheet: &mut Sheet) -> Option<usize>
    requires sets { sets.old.part.t.sets ≡ sheet.old.shape.sets }
    requires some { 0 < sheet.old.shape.most }
    requires room { sheet.old.shape.most ≤ sets.old.most }
    ensures { MatchOption result (Excess (projected sets.old.part) sheet.old.shape.most) (Tabled (projected sets.old.part) sheet.old sheet.new) }
{
    explore(sets, sheet)
}
