// The table of the parts of a partition.
ghost use Rattle.std.specs.Prelude.{◌≡◌, ℕ, ◌*◌, ◌^◌, ◌<◌, ◌≤◌, length, ◌≢◌, slice_index};
ghost use Rattle.tables.specs.Cells.{entry};
ghost use Rattle.tables.specs.View.{moves};
ghost use Rattle.minimize.specs.Quotient.{Quotient};

use tables::cells::{Class, Table, put};

// Writes row `to`, in memory for `most` rows: where class `from` leads, each class by its part. The
// other rows stay.
// Invariant: the columns before a are written.
fn quotient_row(t: Table, cls: &[u32], from: Class, rows: &mut [u32], most: usize, to: Class)
    requires narrow { t.width < 2 ^ 32 }
    requires from { from.0 < t.classes }
    requires to { to.0 < most }
    requires cls { t.classes ≤ length cls.now }
    requires rows { most * t.width ≤ length rows.old }
    ensures leads { (a : ℕ) → a < t.entry.width → entry rows.new t.entry.width to.0 a ≡ slice_index cls.now (moves t.entry from.0 a) }
    ensures kept { (i a : ℕ) → (i ≢ to.0) → a < t.entry.width → entry rows.new t.entry.width i a ≡ entry rows.old t.entry.width i a }
{
    for a in 0..t.width as u32 {
        let q = t.next(from, a);
        put(rows, most, t.width, to, a, Class(cls[q.0 as usize]));
    }
}

// Writes the table of n parts, each from its first class.
// Invariant: the rows before i are written, and which of their parts accept.
pub fn quotient(
    t: Table,
    cls: &[u32],
    firsts: &[u32],
    n: usize,
    rows: &mut [u32],
    accept: &mut [u32],
)
    requires narrow { t.width < 2 ^ 32 }
    requires few { n < 2 ^ 32 }
    requires firsts { (i : ℕ) → i < n → slice_index firsts.now i < t.classes }
    requires cls { t.classes ≤ length cls.now }
    requires firsts_fit { n ≤ length firsts.now }
    requires rows { n * t.width ≤ length rows.old }
    requires accept { n ≤ length accept.old }
    ensures { Quotient t.entry cls.now firsts.now n rows.new accept.new }
{
    for i in 0..n {
        let first = firsts[i];
        quotient_row(t, cls, Class(first), rows, n, Class(i as u32));
        accept[i] = t.accept[first as usize];
    }
}
