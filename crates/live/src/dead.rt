// The dead class of an exact table.
//
// A class is dead if nothing can be accepted from it. In a table in which no two classes are alike
// there is at most one such class: it does not accept, and every column leads back to it. So no
// search is needed to find it: a class is ruled out by accepting, or by the first column that leads
// elsewhere.
ghost use Rattle.std.specs.Prelude.{◌≡◌, ℕ, ◌^◌, ◌<◌, true, false, ◌⊎◌, ◌↔◌, ◌≢◌, MatchOption};
ghost use Rattle.automata.specs.Tables.{Connected, Collapsed};
ghost use Rattle.automata.specs.Subsets.{Live};
ghost use Rattle.tables.specs.Cells.{entry, accepts};
ghost use Rattle.tables.specs.View.{moves, accepting};
ghost use Rattle.live.specs.Dead.{lives};

use tables::cells::{Class, Table, WordTable};

// Whether class q does not accept and every column leads from it back to it.
fn is_dead(t: Table, q: Class) -> bool
    requires class { q.0 < t.classes }
    requires narrow { t.width < 2 ^ 32 }
    ensures rejects { result ≡ true → accepting t.entry q.0 ≡ false }
    ensures stays { result ≡ true → (a : ℕ) → a < t.entry.width → moves t.entry q.0 a ≡ q.0 }
    ensures open { result ≡ false → (accepting t.entry q.0 ≡ true) ⊎ ((a : ℕ) × (a < t.entry.width) × (moves t.entry q.0 a ≢ q.0)) }
{
    if t.accepts(q) {
        return false;
    }
    for a in 0..t.width {
        if t.next(q, a as u32).0 != q.0 {
            return false;
        }
    }
    true
}

/// The dead class, if there is one. It takes no scratch.
pub fn dead(t: WordTable) -> Option<usize>
    requires few { t.table.classes < 2 ^ 32 }
    requires connected { Connected t.sets t.table.classes (moves t.table) }
    requires collapsed { Collapsed t.sets t.table.classes (moves t.table) (accepting t.table) }
    ensures within { MatchOption result (Unit {0}) (λ dead. dead < t.entry.table.classes) }
    ensures live { (q : ℕ) → q < t.entry.table.classes → (lives t.entry.table.classes result q ≡ true) ↔ Live t.entry.sets (moves t.entry.table) (accepting t.entry.table) q }
{
    for q in 0..t.table.classes {
        if is_dead(t.table, Class(q as u32)) {
            return Some(q);
        }
    }
    None
}
