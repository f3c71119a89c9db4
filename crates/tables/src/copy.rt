// A table copied into other memory.
ghost use Rattle.std.specs.Prelude.{◌≡◌, ℕ, ◌*◌, ◌<◌, ◌≤◌, length};
ghost use Rattle.tables.specs.Cells.{entry, accepts};
ghost use Rattle.tables.specs.View.{moves, accepting};

use crate::cells::Table;

// Writes the table into `rows` and `accept`, which may hold anything; what lies behind it there
// stays.
pub fn copy(t: Table, rows: &mut [u32], accept: &mut [u32])
    requires rows { t.classes * t.width ≤ length rows.old }
    requires accept { t.classes ≤ length accept.old }
    ensures leads { (q a : ℕ) → q < t.entry.classes → a < t.entry.width → entry rows.new t.entry.width q a ≡ moves t.entry q a }
    ensures ends { (q : ℕ) → q < t.entry.classes → accepts accept.new q ≡ accepting t.entry q }
{
    let words = t.classes * t.width;
    rows[..words].copy_from_slice(&t.rows[..words]);
    accept[..t.classes].copy_from_slice(&t.accept[..t.classes]);
}
