// What has been worked out of a part's tables is handed on as the part's own table.
ghost use Rattle.std.specs.Prelude.{◌≡◌, ◌*◌, ◌<◌, ◌≤◌, length};
ghost use Rattle.construct.specs.HandOn.{HandedOn};

use crate::wanted::Wanted;
use minimize::memory::Parts;
use minimize::minimize::minimize;
use tables::cells::WordTable;
use tables::copy::copy;
use tables::sheet::Sheet;

/// Writes the table on the sheet as it is wanted: exact, with its classes that are alike joined, or
/// as it is. How many classes it has there. The sheet may be for tables of more columns; the rows
/// are as wide as those of the table.
/// Scratch is five words for each class, and as many pairs as there are of classes; more of these
/// make joining faster.
pub fn hand_on(
    t: WordTable,
    wanted: Wanted,
    scratch: &mut [u32],
    pairs: &mut [u32],
    sheet: &mut Sheet,
) -> usize
    requires some { 0 < t.table.classes }
    requires few { t.table.classes ≤ sheet.old.shape.most }
    requires sets { t.sets ≤ sheet.old.shape.sets }
    requires scratch { 5 * t.table.classes ≤ length scratch.old }
    requires pairs { t.table.classes * t.table.classes ≤ length pairs.old }
    ensures { HandedOn wanted t.entry sheet.old sheet.new result }
{
    match wanted {
        Wanted::Exact => {
            let mut parts = Parts::cut(t.table.classes, scratch, pairs);
            let Some(count) = minimize(t, &mut parts, sheet) else {
                unreachable()
            };
            count
        }
        Wanted::Any => {
            let (rows, accept) = (&mut *sheet.rows, &mut *sheet.accept);
            copy(t.table, rows, accept);
            t.table.classes
        }
    }
}
