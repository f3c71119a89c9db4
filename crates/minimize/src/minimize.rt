// The smallest table: the classes that are alike joined, and their table written.
ghost use Rattle.std.specs.Prelude.{◌≡◌, ◌^◌, ◌<◌, ◌≤◌, MatchOption};
ghost use Rattle.minimize.specs.Join.{TooManyJoined, Minimized};

use crate::join::join;
use crate::memory::Parts;
use crate::quotient::quotient;
use tables::cells::WordTable;
use tables::sheet::Sheet;

/// Joins the classes that are alike and writes the joined table on the sheet, class i of it the
/// part i: how many classes it has, or that they are more than the sheet has room for. The sheet
/// may be for tables of more columns; the rows are as wide as those of the table.
pub fn minimize(t: WordTable, parts: &mut Parts, sheet: &mut Sheet) -> Option<usize>
    requires some { 0 < t.table.classes }
    requires few { t.table.classes < 2 ^ 32 }
    requires room { t.table.classes ≤ parts.old.most }
    requires sets { t.sets ≤ sheet.old.shape.sets }
    ensures { MatchOption result (TooManyJoined t.entry sheet.old) (Minimized t.entry sheet.old sheet.new) }
{
    let n = join(t, parts);
    if n > sheet.shape.most {
        return None;
    }
    let (rows, accept) = (&mut *sheet.rows, &mut *sheet.accept);
    quotient(t.table, parts.cls, parts.firsts, n, rows, accept);
    Some(n)
}
