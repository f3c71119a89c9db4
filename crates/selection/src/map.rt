// From each column of some sets to that of others which agrees with it in the sets of both.
ghost use Rattle.std.specs.Prelude.{◌≡◌, ℕ, ◌+◌, ◌^◌, ◌<◌, ◌≤◌, true, length, slice_index, bit_or};
ghost use Rattle.words.specs.Bits.{put_bit};
ghost use Rattle.selection.specs.Selections.{count, narrow, spread};

use crate::selection::Selection;
use words::bits::Set;

// What set x adds to a column of the selection's sets: its bit, if it is one of them.
fn bit_of(sets: Selection, x: Set) -> u32
    requires { x.0 < sets.of }
    ensures { (a : ℕ) → bit_or (narrow sets a) result ≡ narrow sets (put_bit x.0 true a) }
{
    if sets.has(x) { 1 << sets.place(x) } else { 0 }
}

// Puts behind the first n columns the same with a bit.
// Invariant: those before j are put.
fn double(map: &mut [u32], n: usize, bit: u32)
    requires { n + n ≤ length map.old }
    ensures kept { (j : ℕ) → j < n → slice_index map.new j ≡ slice_index map.old j }
    ensures put { (j : ℕ) → j < n → slice_index map.new (n + j) ≡ bit_or (slice_index map.old j) bit }
{
    for j in 0..n {
        map[n + j] = map[j] | bit;
    }
}

/// For each column of the sets of `to`, the column of the sets of `from` that agrees with it in the
/// sets of both, and has no other set.
// It begins with the column of no sets. A further set of `to` doubles the columns: those without it
// come first, as they are, and behind them, in the same order, those with it.
// Invariant: n columns have no set of `to` from x on, and these are mapped.
pub fn fill(from: Selection, to: Selection, map: &mut [u32])
    requires same { from.of ≡ to.of }
    requires room { 2 ^ count to ≤ length map.old }
    ensures { (j : ℕ) → j < 2 ^ count to → slice_index map.new j ≡ narrow from (spread to j) }
{
    map[0] = 0;
    let mut n = 1;
    for x in 0..to.of as u8 {
        if to.has(Set(x)) {
            double(map, n, bit_of(from, Set(x)));
            n *= 2;
        }
    }
}
