// The first class that accepts, or the first that does not.
ghost use Rattle.std.specs.Prelude.{◌^◌, ◌<◌, MatchOption};
ghost use Rattle.tables.specs.View.{accepting};
ghost use Rattle.shortest.specs.First.{Foremost, Nowhere};

use tables::cells::{Class, Table};

/// The first class that accepts (`wanted` is true) or does not (false).
pub fn first(t: Table, wanted: bool) -> Option<usize>
    requires few { t.classes < 2 ^ 32 }
    ensures { MatchOption result (Nowhere (accepting t.entry) t.entry.classes wanted) (Foremost (accepting t.entry) t.entry.classes wanted) }
{
    for q in 0..t.classes {
        if t.accepts(Class(q as u32)) == wanted {
            return Some(q);
        }
    }
    None
}
