// Sets of classes as rows of bits, 32 classes to a word. A row is a slice of words, so that rows
// one behind the other are parts of one slice.
ghost use Rattle.std.specs.Prelude.{◌≡◌, ℕ, ◌+◌, ◌*◌, ◌^◌, ◌<◌, ◌≤◌, true, false, length, Decides};
ghost use Rattle.tables.specs.Cells.{accepts};
ghost use Rattle.bitsets.specs.Bitrows.{has, row_at, Adds, SomeBit, BitsBelow, Below, Meets};

use words::bits::{Set, with_bit};

// Empties a set.
pub fn clear(row: &mut [u32])
    ensures { (q : ℕ) → has row.new q ≡ false }
{
    for word in row.iter_mut() {
        *word = 0;
    }
}

// Puts class q into a set.
pub fn insert(row: &mut [u32], q: usize)
    requires { q < 32 * length row.old }
    ensures { Adds (has row.old) (has row.new) (λ r. r ≡ q) }
{
    let word = with_bit(row[q / 32], Set((q % 32) as u8));
    row[q / 32] = word;
}

// Whether row i and row j are the same.
pub fn same_rows(sets: &[u32], w: usize, i: usize, j: usize) -> bool
    requires i { i * w + w ≤ length sets.now }
    requires j { j * w + w ≤ length sets.now }
    ensures { Decides result (row_at sets.now w i ≡ row_at sets.now w j) }
{
    sets[i * w..i * w + w] == sets[j * w..j * w + w]
}

// Whether one of the classes from + y accepts, y the bits of a word: shifts the word down until no
// bit is left.
fn meets_word(word: u32, from: usize, accept: &[u32]) -> bool
    requires inside { BitsBelow (length accept.now) from word }
    requires small { from < 2 ^ 40 }
    ensures { Decides result (SomeBit (λ q. accepts accept.now q ≡ true) from word) }
{
    let mut left = word;
    let mut q = from;
    while left != 0 {
        if left % 2 == 1 && accept[q] == 1 {
            return true;
        }
        left /= 2;
        q += 1;
    }
    false
}

// Whether one of the classes of a set accepts.
pub fn meets(row: &[u32], accept: &[u32]) -> bool
    requires inside { Below (length accept.now) (has row.now) }
    requires small { length row.now < 2 ^ 32 }
    ensures { Decides result (Meets (has row.now) (accepts accept.now)) }
{
    for z in 0..row.len() {
        if meets_word(row[z], z * 32, accept) {
            return true;
        }
    }
    false
}
