// The call.
ghost use Rattle.std.specs.Prelude.{◌<◌, length};
ghost use Rattle.lengths.specs.Says.{JudgedPost};

use crate::answer::answer;
use crate::judged::Judged;
use construct::part::table;
use construct::wanted::Wanted;
use construct::work::Work;
use construct::work_out::work_out;
use tables::sheet::{Shape, Sheet};
use workspace::cut::{Slot, cut_slot};
use workspace::extent::{Extent, extent_of};
use workspace::floor::too_few;

// Whether the claim holds of all words, of none, or of which first; `most` is the largest number of
// classes that may be told apart at a part.
// Nothing is asked of the arguments: too little work memory, bytes that are no claim and a claim
// that does not fit are answers. Work memory is free, out is written only where two words are.
pub fn judge(claim: &[u8], most: u32, out: &mut [u32], work: &mut [u32]) -> Judged
    ensures { JudgedPost claim.now most out.old out.new (length work.old) result }
{
    let extent = extent_of(claim);
    if too_few(work.len(), claim, extent, most) {
        return Judged::Few;
    }
    let Some(Extent { sets, widest }) = extent else {
        return Judged::NoClaim;
    };
    if most == 0 {
        return Judged::Many;
    }
    let n = most as usize;
    let shape = Shape::new(n, u32::from(widest));
    let Slot { rows, accept, rest } = cut_slot(work, shape.width, n);
    let mut sheet = Sheet {
        rows,
        accept,
        shape,
    };
    let mut inner = Work::cut(u32::from(sets), shape, rest);
    let Some(part) = work_out(&claim[1..], Wanted::Any, &mut sheet, &mut inner) else {
        return Judged::Many;
    };
    let scratch = inner.scratch;
    answer(table(&sheet, part), part.sets, scratch, out)
}
