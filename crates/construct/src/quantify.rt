// Some set x: from the exact table of a claim to the table of the claim of which x is left out.
//
// A claim that does not mention x is the same with some x before it, and so is its table. Else the
// sets of classes that are reached whatever x is are found over the columns of the part's sets; a
// column leads from them where it leads without x. So x is no longer mentioned, and their table is
// written over the columns of the other sets.
ghost use Rattle.std.specs.Prelude.{◌≡◌, ℕ, ◌+◌, ◌*◌, ◌<◌, ◌≤◌, length};
ghost use Rattle.claims.specs.Claims.{C, some};
ghost use Rattle.workspace.specs.Cut.{slot_words};
ghost use Rattle.construct.specs.Stands.{Stands, Result};
ghost use Rattle.construct.specs.declared.wanted.Wanted.TheVariants.{Exact};

use crate::hand_on::hand_on;
use crate::part::{Part, table};
use crate::wanted::Wanted;
use crate::work::Work;
use live::beyond::{Backward, beyond};
use live::dead::dead;
use project::memory::Sets;
use project::projection::Projection;
use project::subsets::subsets;
use selection::recolumn::recolumn;
use tables::sheet::{Shape, Sheet};
use words::bits::Set;
use workspace::cut::{Slot, cut_slot};

/// The sets of live classes that are reached whatever set x is, as a table as it is wanted, in
/// place of that of a part on the sheet: the part without x, or that the claim does not fit.
pub fn quantify(
    wanted: Wanted,
    x: Set,
    sheet: &mut Sheet,
    part: Part,
    work: &mut Work,
) -> Option<Part>
    requires shape { sheet.old.shape ≡ work.old.shape }
    requires set { x.0 < work.old.sets }
    requires part { (c : C) × Stands Exact work.old.sets sheet.old c part }
    requires free { slot_words work.old.shape.width work.old.shape.most ≤ length work.old.free.now }
    ensures table { (c : C) → Stands Exact work.old.sets sheet.old c part → Result wanted work.old.sets sheet.old sheet.new (some x.0 c) result }
    ensures sets { work.new.sets ≡ work.old.sets }
    ensures shape { work.new.shape ≡ work.old.shape }
    ensures free { length work.new.free.now ≡ length work.old.free.now }
{
    if !part.sets.has(x) {
        return Some(part);
    }
    let most = work.shape.most;
    let (free, spare) = (&mut *work.free, &mut *work.spare);
    let (scratch, pairs) = (&mut *work.scratch, &mut *work.pairs);
    let t = table(sheet, part);
    let sets = part.sets.without(x);
    let (wide, narrow) = (Shape::new(most, t.sets), Shape::new(most, sets.count()));
    let Slot { rows, accept, .. } = cut_slot(free, wide.width, most);
    let mut reached = Sheet {
        rows,
        accept,
        shape: wide,
    };
    let Slot { rows, accept, .. } = cut_slot(spare, narrow.width, most);
    let mut left_out = Sheet {
        rows,
        accept,
        shape: narrow,
    };
    let (map, rest) = scratch.split_at_mut(narrow.width);
    let (completed, rest) = rest.split_at_mut(most);
    let x = Set(part.sets.place(x) as u8);
    let dead = dead(t);
    beyond(t, x, completed, &mut Backward::cut(most, rest));
    let (heads, rest) = rest.split_at_mut(most + 1);
    let (links, rest) = rest.split_at_mut(most + 1);
    let (buckets, _) = rest.split_at_mut(most + 1);
    let mut found = Sets {
        part: Projection {
            t,
            x,
            dead,
            completed,
            w: (part.classes + 31) / 32,
        },
        most,
        sets: &mut *pairs,
        heads,
        links,
        buckets,
    };
    let count = subsets(&mut found, &mut reached)?;
    recolumn(reached.table(count), part.sets, sets, map, &mut left_out);
    let classes = hand_on(left_out.table(count), wanted, scratch, pairs, sheet);
    Some(Part { sets, classes })
}
