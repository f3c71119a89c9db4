// The set of the live classes to which two columns lead from the classes of a set. Sets are rows of
// w words, one behind the other in one slice.
ghost use Rattle.std.specs.Prelude.{◌≡◌, ℕ, ◌+◌, ◌*◌, ◌^◌, ◌<◌, ◌≤◌, length, ◌≢◌, Some};
ghost use Rattle.tables.specs.Cells.{entry};
ghost use Rattle.tables.specs.View.{moves};
ghost use Rattle.live.specs.Dead.{lives};
ghost use Rattle.bitsets.specs.Bitrows.{has, row_at, member, Adds, SomeBit, BitsBelow, Below};
ghost use Rattle.project.specs.Successors.{Leads, Successors};

use crate::projection::Projection;
use bitsets::bitrows::{clear, insert};
use tables::cells::Class;

// Puts class r into a set, unless it is the dead one.
pub fn put_live(row: &mut [u32], r: Class, dead: Option<usize>)
    requires { r.0 < 32 * length row.old }
    ensures { Adds (has row.old) (has row.new) (λ q. (q ≡ r.0) × (dead ≢ Some q)) }
{
    if dead != Some(r.0 as usize) {
        insert(row, r.0 as usize);
    }
}

// Puts the classes to which columns a and b lead from class q into a set.
fn follow_class(p: &Projection, row: &mut [u32], q: Class, a: u32, b: u32)
    requires inside { q.0 < p.now.t.table.classes }
    requires first { a < p.now.t.table.width }
    requires second { b < p.now.t.table.width }
    requires room { p.now.t.table.classes ≤ 32 * length row.old }
    ensures { Adds (has row.old) (has row.new) (λ r. Leads (moves p.now.t.table) (lives p.now.t.table.classes p.now.dead) a b r q.0) }
{
    let t = p.t.table;
    put_live(row, t.next(q, a), p.dead);
    put_live(row, t.next(q, b), p.dead);
}

// The same from each of the classes from + y, y the bits of a word: shifts the word down until no
// bit is left.
fn follow_word(p: &Projection, row: &mut [u32], word: u32, from: usize, a: u32, b: u32)
    requires inside { BitsBelow p.now.t.table.classes from word }
    requires first { a < p.now.t.table.width }
    requires second { b < p.now.t.table.width }
    requires room { p.now.t.table.classes ≤ 32 * length row.old }
    requires small { from < 2 ^ 40 }
    ensures { Adds (has row.old) (has row.new) (λ r. SomeBit (Leads (moves p.now.t.table) (lives p.now.t.table.classes p.now.dead) a b r) from word) }
{
    let mut left = word;
    let mut q = from;
    while left != 0 {
        if left % 2 == 1 {
            follow_class(p, row, Class(q as u32), a, b);
        }
        left /= 2;
        q += 1;
    }
}

// Writes the set of the live classes to which columns a and b lead from the classes of row i into
// row `to`; the rows before it stay.
pub fn follow(p: &Projection, sets: &mut [u32], i: usize, to: usize, a: u32, b: u32)
    requires order { i < to }
    requires inside { Below p.now.t.table.classes (member sets.old p.now.w i) }
    requires first { a < p.now.t.table.width }
    requires second { b < p.now.t.table.width }
    requires room { to * p.now.w + p.now.w ≤ length sets.old }
    ensures made { Successors (moves p.now.t.table) (lives p.now.t.table.classes p.now.dead) a b (member sets.old p.now.w i) (member sets.new p.now.w to) }
    ensures kept { (j : ℕ) → j < to → row_at sets.new p.now.w j ≡ row_at sets.old p.now.w j }
{
    let w = p.w;
    clear(&mut sets[to * w..to * w + w]);
    for z in 0..w {
        let word = sets[i * w + z];
        follow_word(p, &mut sets[to * w..to * w + w], word, z * 32, a, b);
    }
}
