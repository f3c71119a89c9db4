// A table that is tested as the program runs: that there is room for it, and that every entry is
// the number of a class.
ghost use Rattle.std.specs.Prelude.{◌≡◌, ℕ, ◌*◌, ◌^◌, ◌<◌, ◌≤◌, ◌↔◌, IsTrue, length};
ghost use Rattle.tables.specs.Cells.{entry};
ghost use Rattle.table_cases.specs.Checked.{Written};

use tables::cells::{Class, Table, WordTable, get};

// Whether every entry of row q is the number of a class.
fn row_below(rows: &[u32], classes: usize, width: usize, q: usize) -> bool
    requires room { classes * width ≤ length rows.now }
    requires small { (q < classes) × ((classes < 2 ^ 32) × (width < 2 ^ 32)) }
    ensures { IsTrue result ↔ ((a : ℕ) → a < width → entry rows.now width q a < classes) }
{
    for a in 0..width {
        let to = get(rows, classes, width, Class(q as u32), a as u32);
        if to.0 as usize >= classes {
            return false;
        }
    }
    true
}

// Whether these words are a table over the columns of k sets.
// Invariant: every entry of the rows before q is the number of a class.
pub fn is_table(rows: &[u32], accept: &[u32], classes: usize, k: u32) -> bool
    ensures { IsTrue result ↔ Written rows.now accept.now classes k }
{
    if k > 12 || classes == 0 || classes > 4294967295 {
        return false;
    }
    let width = 1usize << k;
    if classes * width > rows.len() || classes > accept.len() {
        return false;
    }
    for q in 0..classes {
        if !row_below(rows, classes, width, q) {
            return false;
        }
    }
    true
}

// The table that these words are.
pub fn table<'a>(rows: &'a [u32], accept: &'a [u32], classes: usize, k: u32) -> WordTable<'a>
    requires { Written rows.now accept.now classes k }
    ensures classes { result.table.classes ≡ classes }
    ensures sets { result.sets ≡ k }
    ensures width { result.table.width ≡ 2 ^ k }
    ensures rows { result.table.rows.now ≡ rows.now }
    ensures accept { result.table.accept.now ≡ accept.now }
{
    WordTable {
        table: Table {
            rows,
            accept,
            classes,
            width: 1usize << k,
        },
        sets: k,
    }
}
