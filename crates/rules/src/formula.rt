// What formulas say of a row and of the row after it, as claims.
ghost use Rattle.std.specs.Prelude.{◌≡◌, IfOk};
ghost use Rattle.claims.specs.Trees.{said};
ghost use Rattle.translation.specs.Translation.{claim};
ghost use Rattle.rows.specs.Faults.{after_number};
ghost use Rattle.rows.specs.Limits.{bound, row_numbers, with_limits};
ghost use Rattle.formula_claims.specs.Scope.{number_of as scope_number};
ghost use Rattle.rules.specs.Numbers.{number_of};

use crate::numbers::Numbers;
use crate::rule::Rule;
use claims::tree::{Claim, and};
use formula_claims::scope::Scope;
use formula_claims::translate::translate;
use formulas::formula::Formula;
use formulas::name::Name;
use std::alloc::{AllocError, Global};

// The claim of the formula, where each name of a set below n is the set of that bit, and the other names are as in the scope.
fn bound_claim(
    alloc: Global,
    formula: &Formula,
    x: &Numbers,
    n: u8,
    scope: &Scope,
) -> Result<Claim, AllocError>
    ensures { IfOk result (λ c. said c ≡ claim formula.now (bound n (number_of x.now) (scope_number scope.now))) }
{
    if n == 0 {
        return Ok(Box::into_inner(translate(alloc, formula, scope)?));
    }
    let j = n - 1;
    let inner = Scope::Bound(Name::OfGroup(j as u32), x.of_bit(j) as usize, &*scope);
    bound_claim(alloc, formula, x, j, &inner)
}

/// The claim of the formula about the sets of the rule's row, where the bits in `after` are those of the row after.
pub fn of_formula(
    alloc: Global,
    rule: &Rule,
    after: &[u8],
    formula: &Formula,
) -> Result<Claim, AllocError>
    ensures { IfOk result (λ c. said c ≡ claim formula.now (row_numbers rule.now.bits (after_number rule.now.bits after.now))) }
{
    let x = Numbers {
        bits: rule.bits,
        after,
    };
    let n = 2 * rule.bits + 1;
    bound_claim(alloc, formula, &x, n, &Scope::Free(&[]))
}

/// Each of the formulas holds, and the claim.
pub fn with_limits(
    alloc: Global,
    rule: &Rule,
    after: &[u8],
    limits: &[Formula],
    claim: Claim,
) -> Result<Claim, AllocError>
    ensures { IfOk result (λ c. said c ≡ with_limits (row_numbers rule.now.bits (after_number rule.now.bits after.now)) limits.now (said claim)) }
{
    let [formula, rest @ ..] = limits else {
        return Ok(claim);
    };
    let others = with_limits(alloc, rule, after, rest, claim)?;
    and(alloc, of_formula(alloc, rule, after, formula)?, others)
}
