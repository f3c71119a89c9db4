// The limits that are asked of the row after a step: those that name more than the row's places, since it has the same ones.
ghost use Rattle.std.specs.Prelude.{◌≡◌, ◌==◌, length, IfOk};
ghost use Rattle.claims.specs.Trees.{said};
ghost use Rattle.rows.specs.Faults.{after_number, limits_after, of_places};
ghost use Rattle.rows.specs.Limits.{groups_ok, row_numbers, with_limits};

use crate::formula::of_formula;
use crate::rule::Rule;
use claims::tree::{Claim, and};
use formulas::formula::Formula;
use formulas::free::free_names;
use formulas::name::Name;
use std::alloc::{AllocError, Global};

fn are_set(x: u32, names: &[Name]) -> bool
    ensures { result ≡ groups_ok (λ y. y == x) names.now }
{
    match names {
        [] => true,
        [Name::OfPlace(_), ..] => false,
        [Name::OfGroup(y), rest @ ..] => *y == x && are_set(x, rest),
    }
}

// Whether the formula names the places of a row of modules of so many bits alone.
fn is_of_places(alloc: Global, bits: u8, formula: &Formula) -> Result<bool, AllocError>
    ensures { IfOk result (λ alone. alone ≡ of_places bits formula.now) }
{
    let names = free_names(alloc, formula)?;
    Ok(are_set(bits as u32, &names))
}

/// Whether nothing of the limits is asked of the row after.
pub fn none_after(alloc: Global, bits: u8, limits: &[Formula]) -> Result<bool, AllocError>
    ensures { IfOk result (λ none. none ≡ (length (limits_after bits limits.now) == 0)) }
{
    let [formula, rest @ ..] = limits else {
        return Ok(true);
    };
    if !is_of_places(alloc, bits, formula)? {
        return Ok(false);
    }
    none_after(alloc, bits, rest)
}

/// Each of the limits that are asked of the row after holds, where the bits in `after` are those of the row after, and the claim.
pub fn with_limits_after(
    alloc: Global,
    rule: &Rule,
    after: &[u8],
    limits: &[Formula],
    claim: Claim,
) -> Result<Claim, AllocError>
    ensures { IfOk result (λ c. said c ≡ with_limits (row_numbers rule.now.bits (after_number rule.now.bits after.now)) (limits_after rule.now.bits limits.now) (said claim)) }
{
    let [formula, rest @ ..] = limits else {
        return Ok(claim);
    };
    let others = with_limits_after(alloc, rule, after, rest, claim)?;
    if is_of_places(alloc, rule.bits, formula)? {
        return Ok(others);
    }
    and(alloc, of_formula(alloc, rule, after, formula)?, others)
}
