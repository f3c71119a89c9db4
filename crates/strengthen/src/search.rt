// Goes through the choices that begin alike, in their order: by the next number, and where none of those with it is kept by the one after it.
ghost use Rattle.std.specs.Prelude.{◌≡◌, ℕ, ◌<◌, ◌≤◌, ◌++◌, ◌∷◌, [], length, IfOk, OnOk};
ghost use Rattle.strengthen.specs.Known.{IsKnown, IsSearched};
ghost use Rattle.strengthen.specs.Listed.{Below};

use crate::answer::LargeChoice;
use crate::judge::{Judged, judge_choice};
use crate::known::Known;
use crate::problem::Problem;
use crate::watch::{Event, Watch};
use std::alloc::{AllocError, Global};

/// The choices that begin with these numbers and go on with `count` more, from `from` on.
#[derive(Clone, Copy)]
pub struct Front<'c> {
    pub choice: &'c [usize],
    pub from: usize,
    pub count: usize,
}

/// Where a search ends: at a choice with which the claim is kept, or at one with which it is too large.
#[derive(Debug, Drop)]
pub enum Stop {
    Kept(Vec<usize>),
    TooLarge(LargeChoice),
}

// A choice that is complete.
fn complete<W: Watch>(
    alloc: Global,
    problem: Problem<'_, '_>,
    known: &mut Known,
    watch: &mut W,
    front: Front<'_>,
) -> Result<Option<Stop>, AllocError>
    requires known { IsKnown problem.given known.old }
    requires below { Below (length problem.given.helpers.now) front.choice.now }
    requires complete { front.count ≡ 0 }
    ensures searched { IfOk result (IsSearched problem.entry.given problem.entry.memory front.entry.from front.entry.count front.entry.choice.now) }
    ensures known { OnOk result (IsKnown problem.entry.given known.new) }
{
    let judged = judge_choice(alloc, problem, known, watch, front.choice)?;
    watch.note(Event::Passed);
    let choice = Vec::from_slice(alloc, front.choice)?;
    match judged {
        Judged::NotKept => Ok(None),
        Judged::Kept => Ok(Some(Stop::Kept(choice))),
        Judged::TooLarge(large) => Ok(Some(Stop::TooLarge(LargeChoice { choice, large }))),
    }
}

/// The numbers and one more.
pub fn with_number(alloc: Global, choice: &[usize], i: usize) -> Result<Vec<usize>, AllocError>
    ensures items { IfOk result (λ v. v.items ≡ choice.now ++ (i ∷ [])) }
    ensures below { IfOk result (λ v. (n : ℕ) → Below n choice.now → i < n → Below n v.items) }
{
    let mut longer = Vec::from_slice(alloc, choice)?;
    longer.push(i)?;
    Ok(longer)
}

/// The first of these choices with which the claim is kept, or too large; or that it is kept with none of them. Those with a number that is not left are
/// passed over. Fails for memory.
/// Invariant: it is kept with none whose next number is below c.
#[cycle(search)]
pub fn search<W: Watch>(
    alloc: Global,
    problem: Problem<'_, '_>,
    known: &mut Known,
    watch: &mut W,
    front: Front<'_>,
) -> Result<Option<Stop>, AllocError>
    requires known { IsKnown problem.given known.old }
    requires below { Below (length problem.given.helpers.now) front.choice.now }
    requires from { front.from ≤ length problem.given.helpers.now }
    ensures searched { IfOk result (IsSearched problem.entry.given problem.entry.memory front.entry.from front.entry.count front.entry.choice.now) }
    ensures known { OnOk result (IsKnown problem.entry.given known.new) }
{
    if front.count == 0 {
        return complete(alloc, problem, known, watch, front);
    }
    for c in front.from..problem.given.helpers.len() {
        if known.left[c + 1] {
            let choice = with_number(alloc, front.choice, c)?;
            let next = Front {
                choice: &choice,
                from: c + 1,
                count: front.count - 1,
            };
            if let Some(stop) = search(alloc, problem, known, watch, next)? {
                return Ok(Some(stop));
            }
        }
    }
    Ok(None)
}
