// A table over the columns of some sets, as rows over the columns of all sets.
ghost use Rattle.std.specs.Prelude.{◌≡◌, ℕ, ◌*◌, ◌^◌, ◌<◌, length, slice_index, IfOk};
ghost use Rattle.selection.specs.Selections.{narrow};
ghost use Rattle.tables.specs.Cells.{entry};

use selection::selection::Selection;
use std::alloc::{AllocError, Global};
use tables::cells::{Class, Table};

/// For each column of all sets, the column of the selection's sets alone.
/// Invariant: those of the columns before a are there.
pub fn narrow_columns(alloc: Global, sets: Selection) -> Result<Vec<u32>, AllocError>
    ensures many { IfOk result (λ v. length v.items ≡ 2 ^ sets.of) }
    ensures narrow { IfOk result (λ v. (a : ℕ) → a < 2 ^ sets.of → slice_index v.items a ≡ narrow sets a) }
{
    let width = 1u32 << sets.of;
    let mut columns = Vec::with_capacity(alloc, width as usize)?;
    for a in 0..width {
        columns.push(sets.narrow(a))?;
    }
    Ok(columns)
}

/// The table's rows, each with a place for each of the columns given, which leads where that column
/// does.
/// Invariant: the rows before q are there, and of row q the places before those that are left.
pub fn rows_by(alloc: Global, t: Table, columns: &[u32]) -> Result<Vec<u32>, AllocError>
    requires few { t.classes < 2 ^ 32 }
    requires columns { (a : ℕ) → a < length columns.now → slice_index columns.now a < t.width }
    ensures many { IfOk result (λ v. length v.items ≡ t.entry.classes * length columns.now) }
    ensures leads { IfOk result (λ v. (q a : ℕ) → q < t.entry.classes → a < length columns.now → entry v.items (length columns.now) q a ≡ entry t.entry.rows.now t.entry.width q (slice_index columns.now a)) }
{
    let mut rows = Vec::new(alloc);
    for q in 0..t.classes {
        for column in columns {
            let Class(to) = t.next(Class(q as u32), *column);
            rows.push(to)?;
        }
    }
    Ok(rows)
}
