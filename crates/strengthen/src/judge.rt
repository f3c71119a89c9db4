// Whether a claim is kept with one choice of a list.
ghost use Rattle.std.specs.Prelude.{◌≡◌, ℕ, true, All, length, IfOk, IfSome, OnOk};
ghost use Rattle.strengthen.specs.Known.{Begins, IsJudged, IsKnown, judged_of};
ghost use Rattle.strengthen.specs.Listed.{Below, Has, IsWith, KeptWith};
ghost use Rattle.strengthen.specs.Marks.{IsRefutation};

use crate::choice::keeping_with;
use crate::follow::{Followed, follows};
use crate::known::Known;
use crate::listed::Listed;
use crate::problem::Problem;
use crate::refutation::Refutation;
use crate::watch::{Event, Watch};
use keeping::moment::Moment;
use kept_check::answer::{Answer, TooLarge};
use kept_check::judge_kept::judge_kept;
use kept_check::part::Asked;
use kept_claims::kept::Keeping;
use std::alloc::{AllocError, Global};

/// It is kept with this choice; it is not; or the two together are too large.
#[derive(Clone, Copy, Debug, PartialEq, Eq)]
pub enum Judged {
    Kept,
    NotKept,
    TooLarge(TooLarge),
}

// Whether one of the rows refutes the choice.
fn is_refuted(given: Listed<'_, '_>, refutations: &[Refutation], choice: &[usize]) -> bool
    requires refutations { All (IsRefutation given) refutations.now }
    requires below { Below (length given.helpers.now) choice.now }
    ensures { result ≡ true → KeptWith given.entry choice.now → ⊥ }
{
    refutations.iter().any(|r| r.refutes(given, choice))
}

// Whether the claim and all that are chosen are known to follow from the start.
fn all_begin(given: Listed<'_, '_>, known: &Known, choice: &[usize]) -> bool
    requires known { IsKnown given known.now }
    requires below { Below (length given.helpers.now) choice.now }
    ensures { result ≡ true → (j : ℕ) → Has choice.now j → Begins given.entry j }
{
    let [i, rest @ ..] = choice else {
        return known.begins[0];
    };
    known.begins[*i + 1] && all_begin(given, known, rest)
}

// By the steps, where all follow from the start: nothing, where the claim with the choice is too large for that.
fn by_steps<W: Watch>(
    alloc: Global,
    problem: Problem<'_, '_>,
    known: &mut Known,
    watch: &mut W,
    choice: &[usize],
    keeping: &Keeping<'_>,
) -> Result<Option<Judged>, AllocError>
    requires known { IsKnown problem.given known.old }
    requires below { Below (length problem.given.helpers.now) choice.now }
    requires with { IsWith problem.given choice.now keeping.now }
    ensures judged { IfOk result (λ o. IfSome o (IsJudged problem.entry.given problem.entry.memory choice.now)) }
    ensures known { OnOk result (IsKnown problem.entry.given known.new) }
{
    if !all_begin(problem.given, known, choice) {
        return Ok(None);
    }
    let asked = Asked {
        keeping,
        memory: problem.memory,
    };
    match follows(alloc, asked, &keeping.claim, Moment::Step, watch)? {
        Followed::Always => Ok(Some(Judged::Kept)),
        Followed::TooLarge => Ok(None),
        Followed::Not(row) => {
            let refutation = Refutation::of_row(alloc, problem.given, &known.tables, &row)?;
            known.refutations.push(refutation)?;
            Ok(Some(Judged::NotKept))
        }
    }
}

// What the answer on the claim with the choice says of the choice.
fn judged_of(answer: &Answer) -> Judged
    ensures { result ≡ judged_of answer.now }
{
    match answer {
        Answer::Kept => Judged::Kept,
        Answer::NotKept(_) => Judged::NotKept,
        Answer::TooLarge(large) => Judged::TooLarge(*large),
    }
}

// As any claim that is to be kept is judged.
fn as_claim<W: Watch>(
    alloc: Global,
    problem: Problem<'_, '_>,
    watch: &mut W,
    choice: &[usize],
    keeping: &Keeping<'_>,
) -> Result<Judged, AllocError>
    requires with { IsWith problem.given choice.now keeping.now }
    ensures { IfOk result (IsJudged problem.entry.given problem.entry.memory choice.now) }
{
    let asked = Asked {
        keeping,
        memory: problem.memory,
    };
    watch.note(Event::Judged);
    let answer = judge_kept(alloc, asked)?;
    Ok(judged_of(&answer))
}

/// Whether the claim is kept with this choice. It is not judged where a row refutes it that was found before, and a row that is found refutes others
/// later. Fails for memory.
pub fn judge_choice<W: Watch>(
    alloc: Global,
    problem: Problem<'_, '_>,
    known: &mut Known,
    watch: &mut W,
    choice: &[usize],
) -> Result<Judged, AllocError>
    requires known { IsKnown problem.given known.old }
    requires below { Below (length problem.given.helpers.now) choice.now }
    ensures judged { IfOk result (IsJudged problem.entry.given problem.entry.memory choice.now) }
    ensures known { OnOk result (IsKnown problem.entry.given known.new) }
{
    if is_refuted(problem.given, &known.refutations, choice) {
        return Ok(Judged::NotKept);
    }
    let keeping = keeping_with(alloc, problem.given, choice)?;
    match by_steps(alloc, problem, known, watch, choice, &keeping)? {
        Some(judged) => Ok(judged),
        None => as_claim(alloc, problem, watch, choice, &keeping),
    }
}
