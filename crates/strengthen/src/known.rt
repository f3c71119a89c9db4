// What is known of the choices before they are gone through: which claims follow from the start, and which of the list a choice that is kept may have.
ghost use Rattle.std.specs.Prelude.{◌≡◌, ◌⊎◌, ℕ, ◌<◌, ◌≤◌, suc, true, false, length, slice_index_or, IfOk, OnOk};
ghost use Rattle.formulas.specs.Names.{Among};
ghost use Rattle.strengthen.specs.Known.{Begins, IsKnown, Without, said_of};
ghost use Rattle.strengthen.specs.Listed.{Below};
ghost use Rattle.strengthen.specs.declared.marks.Mark.TheVariants.{Fails, Unknown};

use crate::choice::keeping_with;
use crate::follow::{Followed, follows};
use crate::marks::Mark;
use crate::problem::Problem;
use crate::refutation::Refutation;
use crate::table::tables_of;
use crate::watch::Watch;
use keeping::moment::Moment;
use kept_check::part::Asked;
use minimal::automaton::Automaton;
use std::alloc::{AllocError, Global};

/// Of each claim its automaton, where there is one, whether it is known to follow from the start, and whether a choice that has it may be kept: the claim
/// itself at 0 and the first of the list at 1. And rows that refute choices.
#[derive(Debug, Drop)]
pub struct Known {
    pub tables: Vec<Option<Automaton>>,
    pub begins: Vec<bool>,
    pub left: Vec<bool>,
    pub refutations: Vec<Refutation>,
}

// What it says of a claim whether it follows from the start: that it does, and that a choice that has it may be kept.
fn said_of(followed: &Followed) -> (bool, bool)
    ensures { result ≡ said_of followed.now }
{
    match followed {
        Followed::Always => (true, true),
        Followed::Not(_) => (false, false),
        Followed::TooLarge => (false, true),
    }
}

// What the start says of the claim with that number: whether it is known to follow, and whether a choice that has it may be kept.
fn asked_of_start<W: Watch>(
    alloc: Global,
    problem: Problem<'_, '_>,
    j: usize,
    watch: &mut W,
) -> Result<(bool, bool), AllocError>
    requires { j ≤ length problem.given.helpers.now }
    ensures begins { IfOk result (λ p. p.0 ≡ true → Begins problem.entry.given j) }
    ensures left { IfOk result (λ p. p.1 ≡ false → Without problem.entry.given j) }
{
    let asked = Asked {
        keeping: problem.given.keeping,
        memory: problem.memory,
    };
    let claim = problem.given.claim(j);
    let followed = follows(alloc, asked, claim, Moment::Start, watch)?;
    Ok(said_of(&followed))
}

/// What the start says: it is asked once of each claim. No choice is kept that has a claim that does not follow from it.
pub fn begun<W: Watch>(
    alloc: Global,
    problem: Problem<'_, '_>,
    watch: &mut W,
) -> Result<Known, AllocError>
    ensures { IfOk result (IsKnown problem.entry.given) }
{
    let given = problem.given;
    let mut begins = Vec::new(alloc);
    let mut left = Vec::new(alloc);
    for j in 0..given.helpers.len() + 1 {
        let (begin, stays) = asked_of_start(alloc, problem, j, watch)?;
        begins.push(begin)?;
        left.push(stays)?;
    }
    Ok(Known {
        tables: tables_of(alloc, given, problem.memory.most)?,
        begins,
        left,
        refutations: Vec::new(alloc),
    })
}

/// The numbers in the list of those that are left. Fails for memory.
pub fn left_numbers(alloc: Global, left: &[bool]) -> Result<Vec<usize>, AllocError>
    ensures below { IfOk result (λ is. (n : ℕ) → length left.now ≡ suc n → Below n is.items) }
    ensures all { IfOk result (λ is. (i : ℕ) → suc i < length left.now → slice_index_or left.now (suc i) true ≡ true → Among i is.items) }
{
    let mut numbers = Vec::new(alloc);
    for j in 1..left.len() {
        if left[j] {
            numbers.push(j - 1)?;
        }
    }
    Ok(numbers)
}

// Those that are left without those that fail.
fn without_failing(alloc: Global, left: &[bool], marks: &[Mark]) -> Result<Vec<bool>, AllocError>
    requires many { length marks.now ≡ length left.now }
    ensures many { IfOk result (λ v. length v.items ≡ length left.now) }
    ensures each { IfOk result (λ v. (j : ℕ) → j < length left.now → slice_index_or v.items j true ≡ false → (slice_index_or left.now j true ≡ false) ⊎ (slice_index_or marks.now j Unknown ≡ Fails)) }
{
    let mut kept = Vec::new(alloc);
    for j in 0..left.len() {
        kept.push(left[j] && marks[j] != Mark::Fails)?;
    }
    Ok(kept)
}

// One round: the claim with all that are left. A row of which all hold, while some do not of the row after it, shows that these are in no choice that is
// kept. Says whether there were any.
fn round<W: Watch>(
    alloc: Global,
    problem: Problem<'_, '_>,
    known: &mut Known,
    watch: &mut W,
) -> Result<bool, AllocError>
    requires known { IsKnown problem.given known.old }
    ensures known { OnOk result (IsKnown problem.entry.given known.new) }
{
    let choice = left_numbers(alloc, &known.left)?;
    let keeping = keeping_with(alloc, problem.given, &choice)?;
    let asked = Asked {
        keeping: &keeping,
        memory: problem.memory,
    };
    let Followed::Not(row) = follows(alloc, asked, &keeping.claim, Moment::Step, watch)? else {
        return Ok(false);
    };
    let refutation = Refutation::of_row(alloc, problem.given, &known.tables, &row)?;
    let left = without_failing(alloc, &known.left, &refutation.after)?;
    let some = left != known.left;
    known.left = left;
    known.refutations.push(refutation)?;
    Ok(some)
}

/// Narrows what is left: the greatest choice that may be kept is what is left when nothing is dropped any more. At most as many rounds as there are claims.
pub fn narrow<W: Watch>(
    alloc: Global,
    problem: Problem<'_, '_>,
    known: &mut Known,
    watch: &mut W,
) -> Result<(), AllocError>
    requires known { IsKnown problem.given known.old }
    ensures known { OnOk result (IsKnown problem.entry.given known.new) }
{
    for _ in 0..problem.given.helpers.len() + 1 {
        if !known.left[0] || !round(alloc, problem, known, watch)? {
            break;
        }
    }
    Ok(())
}
