// From a claim's bytes to its smallest automaton.
ghost use Rattle.std.specs.Prelude.{MatchResult};
ghost use Rattle.minimal.specs.Minimal.{Made, Refused};

use crate::automaton::Automaton;
use crate::refusal::Refusal;
use construct::part::table;
use construct::wanted::Wanted;
use construct::work::Work;
use construct::work_out::work_out;
use std::alloc::Global;
use tables::sheet::{Shape, Sheet};
use workspace::cut::{Slot, cut_slot};
use workspace::extent::{Extent, extent_of};
use workspace::floor::floor;
use workspace::largest::largest;

/// The smallest automaton of the claim with these bytes, where at most `most` classes may be told
/// apart at a part.
/// It is refused if the bytes are no claim, if so many classes do not suffice, or all that 4 MiB
/// have room for, and for want of memory.
pub fn automaton_of(alloc: Global, claim: &[u8], most: u32) -> Result<Automaton, Refusal>
    ensures { MatchResult result (Made claim.now most) (Refused claim.now most) }
{
    let Some(Extent { sets, widest }) = extent_of(claim) else {
        return Err(Refusal::NoClaim);
    };
    let n = largest(claim, most);
    if n == 0 {
        return Err(Refusal::TooLarge(0));
    }
    let most = n as usize;
    let shape = Shape::new(most, u32::from(widest));
    let mut words = vec![in alloc; 0u32; floor(claim, n) as usize]?;
    let Slot { rows, accept, rest } = cut_slot(&mut words, shape.width, most);
    let mut sheet = Sheet {
        rows,
        accept,
        shape,
    };
    let mut work = Work::cut(u32::from(sets), shape, rest);
    let Some(part) = work_out(&claim[1..], Wanted::Exact, &mut sheet, &mut work) else {
        return Err(Refusal::TooLarge(n));
    };
    let automaton = Automaton::of_table(alloc, table(&sheet, part), part.sets)?;
    Ok(automaton)
}
