// The fewest claims of a list with which a claim is kept by the steps of a rule, for rows of every length.
ghost use Rattle.std.specs.Prelude.{IfOk};
ghost use Rattle.strengthen.specs.Known.{IsKnown};
ghost use Rattle.strengthen.specs.Told.{Told};

use crate::answer::Stronger;
use crate::count::choices_of;
use crate::known::{Known, begun, left_numbers, narrow};
use crate::listed::Listed;
use crate::problem::Problem;
use crate::search::{Front, Stop, search};
use crate::watch::{Event, Watch};
use rule_check::memory::Memory;
use std::alloc::{AllocError, Global};

/// So many of the list are chosen at most.
pub const MOST_HELPERS: usize = 8;

// Goes through all choices, by how many numbers they have.
// Invariant: the claim is kept with none of fewer than `count`.
fn search_all<W: Watch>(
    alloc: Global,
    problem: Problem<'_, '_>,
    known: &mut Known,
    watch: &mut W,
) -> Result<Stronger, AllocError>
    requires known { IsKnown problem.given known.old }
    ensures { IfOk result (Told problem.entry.given problem.entry.memory) }
{
    for count in 0..MOST_HELPERS + 1 {
        let front = Front {
            choice: &[],
            from: 0,
            count,
        };
        match search(alloc, problem, known, watch, front)? {
            None => {}
            Some(Stop::Kept(choice)) => return Ok(Stronger::With(choice)),
            Some(Stop::TooLarge(large)) => return Ok(Stronger::TooLarge(large)),
        }
    }
    Ok(Stronger::NoneAmong)
}

/// With which of the list the claim is kept: the fewest, at most eight, and of as many the first, compared number by number; or that it is kept with no
/// such choice; or the first choice of which that is not known, where it is too large. It fails for want of memory alone.
///
/// Each claim is asked of the start once. What is left of the list is narrowed by the greatest set that may be kept, as Houdini does (C. Flanagan and
/// K. R. M. Leino, 2001). Then the choices of what is left are gone through in their order; one that a row refutes that was found before is not judged.
pub fn strengthen<W: Watch>(
    alloc: Global,
    given: Listed<'_, '_>,
    memory: Memory,
    watch: &mut W,
) -> Result<Stronger, AllocError>
    ensures { IfOk result (Told given.entry memory) }
{
    let problem = Problem { given, memory };
    let mut known = begun(alloc, problem, watch)?;
    narrow(alloc, problem, &mut known, watch)?;
    if !known.left[0] {
        return Ok(Stronger::NoneAmong);
    }
    let left = left_numbers(alloc, &known.left)?.len();
    watch.note(Event::Choices(choices_of(left)));
    search_all(alloc, problem, &mut known, watch)
}
