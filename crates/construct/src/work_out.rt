// Working a claim out, part by part, in prefix order over its bytes.
ghost use Rattle.std.specs.Prelude.{◌≡◌, ◌<◌, ◌≤◌, ◌∷◌, length};
ghost use Rattle.construct.specs.WorkOut.{Halves, WorkedOut, Lent, One, IsPart};

use crate::conjoin::conjoin;
use crate::leaf::leaf;
use crate::part::{Part, table};
use crate::quantify::quantify;
use crate::wanted::Wanted;
use crate::work::Work;
use claims::prefix::skip;
use claims::sign::{Sign, read_sign};
use tables::complement::complement;
use tables::sheet::Sheet;
use workspace::cut::{Slot, cut_slot};

// The two parts of an and, by the bytes behind its sign: the longer one, and then the shorter.
fn two_parts(rest: &[u8], k: u8) -> (&[u8], &[u8])
    requires { One k (5 ∷ rest.now) }
    ensures { Halves k (5 ∷ rest.now) result.0.now result.1.now }
{
    let Some(second) = skip(rest, k) else {
        unreachable()
    };
    let first = &rest[0..rest.len() - second.len()];
    if first.len() < second.len() {
        (second, first)
    } else {
        (first, second)
    }
}

/// A table of the part with these bytes, on the sheet, as it is wanted: how many classes it has, or
/// that the part does not fit.
/// A part is worked out in prefix order: its sign, then its parts. What a sign combines are exact
/// tables, so only the outermost sign, or the first that is no `not`, may leave its table as it is.
/// Of the two parts of an and the longer is worked out first, with all free memory; the shorter has
/// less than half of the bytes, and finds room behind the table of the longer. So one slot of free
/// memory for each doubling of the bytes suffices.
/// The bytes of the part fall with each call.
pub fn work_out(part: &[u8], wanted: Wanted, sheet: &mut Sheet, work: &mut Work) -> Option<Part>
    requires part { IsPart work.old.sets work.old.shape.sets part.now }
    requires shape { sheet.old.shape ≡ work.old.shape }
    requires lent { Lent (length part.now) work.old.shape (length work.old.free.now) }
    ensures worked_out { WorkedOut wanted work.old.sets part.now sheet.old sheet.new result }
    ensures sets { work.new.sets ≡ work.old.sets }
    ensures shape { work.new.shape ≡ work.old.shape }
    ensures free { length work.new.free.now ≡ length work.old.free.now }
{
    let (sign, rest) = read_sign(part)?;
    match sign {
        Sign::Atom(atom) => leaf(atom, sheet, work),
        Sign::Not => {
            let part = work_out(rest, wanted, sheet, work)?;
            let accept = &mut *sheet.accept;
            complement(accept, part.classes);
            Some(part)
        }
        Sign::And => {
            let (longer, shorter) = two_parts(rest, work.sets as u8);
            let left = work_out(longer, Wanted::Exact, sheet, work)?;
            let (sets, shape) = (work.sets, work.shape);
            let free = &mut *work.free;
            let spare = &mut *work.spare;
            let scratch = &mut *work.scratch;
            let pairs = &mut *work.pairs;
            let Slot { rows, accept, rest } = cut_slot(free, shape.width, shape.most);
            let mut other = Sheet {
                rows,
                accept,
                shape,
            };
            let mut inner = Work {
                sets,
                shape,
                free: rest,
                spare,
                scratch,
                pairs,
            };
            let right = work_out(shorter, Wanted::Exact, &mut other, &mut inner)?;
            let second = table(&other, right);
            conjoin(wanted, sheet, left, second, right.sets, &mut inner)
        }
        Sign::Some(x) => {
            let part = work_out(rest, Wanted::Exact, sheet, work)?;
            quantify(wanted, x, sheet, part, work)
        }
    }
}
