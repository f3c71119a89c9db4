// One claim and another: from their exact tables to the table of both.
//
// The two parts may mention other sets. Their tables are first written over the columns of the sets
// that either mentions; then their product is one of two tables over the same columns.
ghost use Rattle.std.specs.Prelude.{◌≡◌, ℕ, ◌+◌, ◌*◌, ◌≤◌, length};
ghost use Rattle.claims.specs.Claims.{C, and1};
ghost use Rattle.narrowing.specs.Columns.{size};
ghost use Rattle.narrowing.specs.Mentioned.{mentions};
ghost use Rattle.workspace.specs.Cut.{slot_words};
ghost use Rattle.construct.specs.Stands.{ExactOf, Stands, Result};
ghost use Rattle.construct.specs.declared.wanted.Wanted.TheVariants.{Exact};

use crate::hand_on::hand_on;
use crate::part::{Part, table};
use crate::wanted::Wanted;
use crate::widen::widen;
use crate::work::Work;
use product::memory::Pairs;
use product::pairs::product;
use selection::selection::Selection;
use tables::cells::WordTable;
use tables::sheet::{Shape, Sheet};
use workspace::cut::{Slot, cut_slot};

/// The product of the table of a part, which stands on the sheet, and of another, over the columns
/// of its own sets, as it is wanted, in place of the first: the part that both are, or that the two
/// claims together do not fit.
pub fn conjoin(
    wanted: Wanted,
    sheet: &mut Sheet,
    left: Part,
    other: WordTable,
    right: Selection,
    work: &mut Work,
) -> Option<Part>
    requires shape { sheet.old.shape ≡ work.old.shape }
    requires few { other.table.classes ≤ work.old.shape.most }
    requires first { (c : C) × Stands Exact work.old.sets sheet.old c left }
    requires second { (d : C) × ExactOf work.old.sets work.old.shape.most right other d }
    requires both { (c d : C) → Stands Exact work.old.sets sheet.old c left → ExactOf work.old.sets work.old.shape.most right other d → size work.old.sets (mentions (and1 c d)) ≤ work.old.shape.sets }
    requires free { slot_words work.old.shape.width work.old.shape.most ≤ length work.old.free.now }
    ensures table { (c d : C) → Stands Exact work.old.sets sheet.old c left → ExactOf work.old.sets work.old.shape.most right other.entry d → Result wanted work.old.sets sheet.old sheet.new (and1 c d) result }
    ensures sets { work.new.sets ≡ work.old.sets }
    ensures shape { work.new.shape ≡ work.old.shape }
    ensures free { length work.new.free.now ≡ length work.old.free.now }
{
    let most = work.shape.most;
    let (free, spare) = (&mut *work.free, &mut *work.spare);
    let (scratch, pairs) = (&mut *work.scratch, &mut *work.pairs);
    let both = left.sets.with(right);
    let shape = Shape::new(most, both.count());
    let Slot { rows, accept, rest } = cut_slot(spare, shape.width, most);
    let mut first = Sheet {
        rows,
        accept,
        shape,
    };
    let Slot { rows, accept, .. } = cut_slot(rest, shape.width, most);
    let mut second = Sheet {
        rows,
        accept,
        shape,
    };
    let Slot { rows, accept, .. } = cut_slot(free, shape.width, most);
    let mut product_sheet = Sheet {
        rows,
        accept,
        shape,
    };
    let (map, rest) = scratch.split_at_mut(shape.width);
    let (lefts, rest) = rest.split_at_mut(most + 1);
    let (rights, _) = rest.split_at_mut(most + 1);
    let mut found = Pairs {
        left: widen(table(sheet, left), left.sets, both, map, &mut first),
        right: widen(other, right, both, map, &mut second),
        most,
        lefts,
        rights,
        index: &mut *pairs,
    };
    let count = product(&mut found, &mut product_sheet)?;
    let classes = hand_on(product_sheet.table(count), wanted, scratch, pairs, sheet);
    Some(Part {
        sets: both,
        classes,
    })
}
