// A claim with those of a list that are chosen, as one claim.
ghost use Rattle.std.specs.Prelude.{ℕ, ◌↔◌, length, IfOk, IsTrue};
ghost use Rattle.formulas.specs.Meaning.{Env, Meaning};
ghost use Rattle.rows.specs.Faults.{limits_ok};
ghost use Rattle.rows.specs.Limits.{AllMean};
ghost use Rattle.keeping.specs.Breaches.{names_ok};
ghost use Rattle.strengthening.specs.Choices.{chosen};
ghost use Rattle.strengthen.specs.Listed.{Below, IsWith};

use crate::copy::copy;
use crate::listed::Listed;
use formulas::formula::Formula;
use kept_claims::kept::Keeping;
use std::alloc::{AllocError, Global};

// The formula and those of the list with these numbers.
fn and_chosen(
    alloc: Global,
    formula: Formula,
    helpers: &[Formula],
    choice: &[usize],
) -> Result<Formula, AllocError>
    requires below { Below (length helpers.now) choice.now }
    ensures means { IfOk result (λ f. (e : Env) → Meaning f e ↔ (Meaning formula e × AllMean (chosen helpers.now choice.now) e)) }
    ensures names { IfOk result (λ f. (b : ℕ) → IsTrue (names_ok b formula) → IsTrue (limits_ok b helpers.now) → IsTrue (names_ok b f)) }
{
    let [i, rest @ ..] = choice else {
        return Ok(formula);
    };
    let front = Box::new(alloc, formula)?;
    let helper = Box::new(alloc, copy(alloc, &helpers[*i])?)?;
    let all = and_chosen(alloc, Formula::And(front, helper), helpers, rest)?;
    Ok(all)
}

/// That the claim and all those of the list with these numbers hold together, as a claim that is to be kept. Fails for memory alone.
pub fn keeping_with<'k, 'r>(
    alloc: Global,
    given: Listed<'k, 'r>,
    choice: &[usize],
) -> Result<Keeping<'r>, AllocError>
    requires below { Below (length given.helpers.now) choice.now }
    ensures { IfOk result (IsWith given.entry choice.now) }
{
    let keeping = given.keeping;
    let own = copy(alloc, &keeping.claim)?;
    let claim = and_chosen(alloc, own, given.helpers, choice)?;
    Ok(Keeping {
        rule: keeping.rule,
        start: keeping.start,
        claim: Box::new(alloc, claim)?,
    })
}
