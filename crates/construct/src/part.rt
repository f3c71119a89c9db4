// A part of a claim, once it is worked out.
ghost use Rattle.std.specs.Prelude.{◌≡◌, ℕ};
ghost use Rattle.claims.specs.Claims.{C};
ghost use Rattle.construct.specs.Stands.{Stands, Reads};
ghost use Rattle.construct.specs.declared.wanted.Wanted.{Wanted};

use selection::selection::Selection;
use tables::cells::{Table, WordTable};
use tables::sheet::{Shape, Sheet};

/// The sets that the part mentions, over whose columns its table is, and how many classes that has.
#[derive(Clone, Copy)]
pub struct Part {
    pub sets: Selection,
    pub classes: usize,
}

/// The part's table, to be read from the sheet on which it stands. The sheet may be wider.
pub fn table<'a>(sheet: &'a Sheet, part: Part) -> WordTable<'a>
    requires { (wanted : Wanted) × (k : ℕ) × (c : C) × Stands wanted k sheet.now c part }
    ensures { Reads sheet.now part result }
{
    let shape = Shape::new(part.classes, part.sets.count());
    WordTable {
        table: Table {
            rows: sheet.rows,
            accept: sheet.accept,
            classes: part.classes,
            width: shape.width,
        },
        sets: shape.sets,
    }
}
