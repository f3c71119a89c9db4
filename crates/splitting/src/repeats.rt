// Columns that lead every class where an earlier one does: whatever such a column would tell apart,
// the earlier one has.
ghost use Rattle.std.specs.Prelude.{◌≡◌, ℕ, ◌^◌, ◌<◌, true, false, ◌≢◌, slice_index};
ghost use Rattle.tables.specs.View.{moves};
ghost use Rattle.splitting.specs.Repeats.{Repeat, Repeats};

use tables::cells::{Class, Table, WordTable};
use words::bits::{Set, without_bit};

// Whether two columns lead every class alike.
// Invariant: they lead those before q alike.
fn lead_alike(t: Table, a: u32, b: u32) -> bool
    requires few { t.classes < 2 ^ 32 }
    requires first { a < t.width }
    requires second { b < t.width }
    ensures { result ≡ true → (q : ℕ) → q < t.entry.classes → moves t.entry q a ≡ moves t.entry q b }
{
    for q in 0..t.classes {
        let class = Class(q as u32);
        if t.next(class, a).0 != t.next(class, b).0 {
            return false;
        }
    }
    true
}

// Whether column a repeats a column that has one set less. (Others may lead alike too: those are
// not looked for.)
fn is_repeat(t: WordTable, a: u32) -> bool
    requires few { t.table.classes < 2 ^ 32 }
    requires column { a < t.table.width }
    ensures { result ≡ true → Repeat t.entry.table.classes (moves t.entry.table) a }
{
    for x in 0..t.sets {
        let b = without_bit(a, Set(x as u8));
        if b < a && lead_alike(t.table, a, b) {
            return true;
        }
    }
    false
}

// Marks, by 1, columns that repeat an earlier one, as many of them as there are words for.
// Invariant: of those before a, the marked ones do.
pub fn mark_repeats(t: WordTable, repeats: &mut [u32])
    requires { t.table.classes < 2 ^ 32 }
    ensures { Repeats t.entry.table.classes t.entry.table.width (moves t.entry.table) repeats.new }
{
    for a in 0..t.table.width as u32 {
        if (a as usize) < repeats.len() {
            repeats[a as usize] = if is_repeat(t, a) { 1 } else { 0 };
        }
    }
}

// Whether column a is marked. Columns for which there is no word are not.
pub fn is_marked(repeats: &[u32], a: u32) -> bool
    ensures marked { result ≡ true → slice_index repeats.now a ≡ 1 }
    ensures left { result ≡ false → slice_index repeats.now a ≢ 1 }
{
    (a as usize) < repeats.len() && repeats[a as usize] == 1
}
