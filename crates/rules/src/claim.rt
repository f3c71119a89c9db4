// The claims that a rule makes.
ghost use Rattle.std.specs.Prelude.{◌≡◌, IfOk};
ghost use Rattle.claims.specs.Claims.{and1};
ghost use Rattle.claims.specs.Trees.{said};
ghost use Rattle.rows.specs.Faults;
ghost use Rattle.rows.specs.Faults.{after_number};
ghost use Rattle.rows.specs.Local as local;
ghost use Rattle.rows.specs.RowClaims.{has_module, is_row, same_number};
ghost use Rattle.rows.specs.RuleLocal.{allowed_local, waits_local};
ghost use Rattle.rules.specs.Property.{left_of};

use crate::clauses::{of_pattern, of_patterns};
use crate::formula::{of_formula, with_limits};
use crate::limits::{none_after, with_limits_after};
use crate::local::negated;
use crate::numbers::Numbers;
use crate::places::{Row, each, somewhere};
use crate::row::{has_module, is_row, some_row};
use crate::rule::Rule;
use crate::step::after_step;
use crate::table::of_waiting;
use claims::tree::{Claim, and, not, within};
use formulas::formula::Formula;
use rows::rule::Literal;
use std::alloc::{AllocError, Global};

// The row of which the rule's claims speak: its places are the set behind the bits.
fn row_of(rule: &Rule) -> Row
    ensures { result ≡ record { layout = rule.now.layout; places = rule.now.bits } }
{
    Row {
        layout: rule.layout,
        places: rule.bits,
    }
}

// Each module is as one of the patterns, where the listed bits are those of the row after.
fn all_fit(alloc: Global, rule: &Rule, after: &[u8]) -> Result<Claim, AllocError>
    ensures { IfOk result (λ c. said c ≡ local.each rule.now.layout rule.now.bits (allowed_local rule.now.bits (after_number rule.now.bits after.now) rule.now.allowed.items)) }
{
    let x = Numbers {
        bits: rule.bits,
        after,
    };
    each(alloc, row_of(rule), of_patterns(alloc, &x, &rule.allowed)?)
}

// Each module is as one of the patterns, and the limits hold.
fn all_allowed(alloc: Global, rule: &Rule, after: &[u8]) -> Result<Claim, AllocError>
    ensures { IfOk result (λ c. said c ≡ Faults.allowed_part rule.now.layout rule.now.bits (after_number rule.now.bits after.now) rule.now.allowed.items rule.now.limits.items) }
{
    let fit = all_fit(alloc, rule, after)?;
    with_limits(alloc, rule, after, &rule.limits, fit)
}

// Each module waits.
fn all_wait(alloc: Global, rule: &Rule) -> Result<Claim, AllocError>
    ensures { IfOk result (λ c. said c ≡ local.each rule.now.layout rule.now.bits (waits_local rule.now.bits same_number rule.now.table.items)) }
{
    let x = Numbers {
        bits: rule.bits,
        after: &[],
    };
    each(alloc, row_of(rule), of_waiting(alloc, &x, &rule.table)?)
}

// Somewhere a module is as none of the patterns, where the listed bits are those of the row after.
fn some_misfit(alloc: Global, rule: &Rule, after: &[u8]) -> Result<Claim, AllocError>
    ensures { IfOk result (λ c. said c ≡ local.somewhere rule.now.layout rule.now.bits (local.neg (allowed_local rule.now.bits (after_number rule.now.bits after.now) rule.now.allowed.items))) }
{
    let y = Numbers {
        bits: rule.bits,
        after,
    };
    let other = negated(alloc, of_patterns(alloc, &y, &rule.allowed)?)?;
    somewhere(alloc, row_of(rule), &other)
}

// Somewhere a module is as none of the patterns, or a limit does not hold that is asked of the row after.
fn some_fault(alloc: Global, rule: &Rule, after: &[u8]) -> Result<Claim, AllocError>
    ensures { IfOk result (λ c. said c ≡ Faults.fault_part rule.now.layout rule.now.bits (after_number rule.now.bits after.now) rule.now.allowed.items (Faults.limits_after rule.now.bits rule.now.limits.items)) }
{
    if none_after(alloc, rule.bits, &rule.limits)? {
        return some_misfit(alloc, rule, after);
    }
    let fit = all_fit(alloc, rule, after)?;
    let allowed = with_limits_after(alloc, rule, after, &rule.limits, fit)?;
    not(alloc, allowed)
}

/// There are sets that are the listed bits of the row after, and of them the claim holds.
pub fn in_next_row(
    alloc: Global,
    rule: &Rule,
    after: &[u8],
    claim: Claim,
) -> Result<Claim, AllocError>
    ensures { IfOk result (λ c. said c ≡ Faults.next_claim rule.now.layout rule.now.bits after.now rule.now.table.items (said claim)) }
{
    let y = Numbers {
        bits: rule.bits,
        after,
    };
    let step = after_step(alloc, rule.layout, &y, after, &rule.table, claim)?;
    some_row(alloc, rule.bits, after, step)
}

/// A row, and a claim about it.
pub fn row_with(alloc: Global, rule: &Rule, claim: Claim) -> Result<Claim, AllocError>
    ensures { IfOk result (λ c. said c ≡ and1 (is_row rule.now.bits) (said claim)) }
{
    and(alloc, is_row(alloc, rule.bits)?, claim)
}

// A row with a module, and a claim about it.
fn row_with_module(alloc: Global, rule: &Rule, claim: Claim) -> Result<Claim, AllocError>
    ensures { IfOk result (λ c. said c ≡ and1 (is_row rule.now.bits) (and1 (has_module rule.now.bits) (said claim))) }
{
    let module = and(alloc, has_module(alloc, rule.bits as usize)?, claim)?;
    row_with(alloc, rule, module)
}

/// A row with a module that is allowed.
pub fn allowed_claim(alloc: Global, rule: &Rule) -> Result<Claim, AllocError>
    ensures { IfOk result (λ c. said c ≡ Faults.allowed_claim rule.now.layout rule.now.bits rule.now.allowed.items rule.now.limits.items) }
{
    let allowed = all_allowed(alloc, rule, &[])?;
    row_with_module(alloc, rule, allowed)
}

// A row with a module that is allowed, and a claim about it.
fn module_and(alloc: Global, rule: &Rule, claim: Claim) -> Result<Claim, AllocError>
    ensures { IfOk result (λ c. said c ≡ and1 (is_row rule.now.bits) (and1 (has_module rule.now.bits) (and1 (Faults.allowed_part rule.now.layout rule.now.bits same_number rule.now.allowed.items rule.now.limits.items) (said claim)))) }
{
    let allowed = and(alloc, all_allowed(alloc, rule, &[])?, claim)?;
    row_with_module(alloc, rule, allowed)
}

/// A row with a module that is allowed and stuck.
pub fn stuck_claim(alloc: Global, rule: &Rule) -> Result<Claim, AllocError>
    ensures { IfOk result (λ c. said c ≡ Faults.stuck_claim rule.now.layout rule.now.bits rule.now.allowed.items rule.now.limits.items rule.now.table.items) }
{
    let stuck = all_wait(alloc, rule)?;
    module_and(alloc, rule, stuck)
}

// A row that is allowed, and a claim about it.
fn allowed_and(alloc: Global, rule: &Rule, claim: Claim) -> Result<Claim, AllocError>
    ensures { IfOk result (λ c. said c ≡ and1 (is_row rule.now.bits) (and1 (Faults.allowed_part rule.now.layout rule.now.bits same_number rule.now.allowed.items rule.now.limits.items) (said claim))) }
{
    let allowed = and(alloc, all_allowed(alloc, rule, &[])?, claim)?;
    row_with(alloc, rule, allowed)
}

/// A row that is allowed, and somewhere a module is as the pattern says.
pub fn place_claim(alloc: Global, rule: &Rule, pattern: &[Literal]) -> Result<Claim, AllocError>
    ensures { IfOk result (λ c. said c ≡ Faults.place_claim rule.now.layout rule.now.bits rule.now.allowed.items rule.now.limits.items pattern.now) }
{
    let x = Numbers {
        bits: rule.bits,
        after: &[],
    };
    let fits = of_pattern(alloc, &x, pattern)?;
    let met = somewhere(alloc, row_of(rule), &fits)?;
    allowed_and(alloc, rule, met)
}

/// A row that is allowed, and the row after one step is not. Of the row after the listed bits are claimed to be there; the others are those of the row.
pub fn left_claim(alloc: Global, rule: &Rule, changed: &[u8]) -> Result<Claim, AllocError>
    ensures { IfOk result (λ c. said c ≡ Faults.left_claim rule.now.layout rule.now.bits changed.now rule.now.allowed.items rule.now.limits.items rule.now.table.items) }
{
    let fault = some_fault(alloc, rule, changed)?;
    let left = in_next_row(alloc, rule, changed, fault)?;
    allowed_and(alloc, rule, left)
}

/// A row that is allowed, and the row after one step is not, where the listed bits are those that are asked for and that some line changes. Where none is
/// listed the row after is allowed if the row is, so that no row is claimed: the table need not be looked at.
pub fn left_of(alloc: Global, rule: &Rule, changed: &[u8]) -> Result<Claim, AllocError>
    ensures { IfOk result (λ c. said c ≡ left_of rule.now.layout rule.now.bits changed.now rule.now.allowed.items rule.now.limits.items rule.now.table.items) }
{
    let [_, ..] = changed else {
        let b = rule.bits as usize;
        let none = not(alloc, within(b, b))?;
        return row_with(alloc, rule, none);
    };
    left_claim(alloc, rule, changed)
}

/// A row with a module that is allowed, and the formula does not hold of it and the row after one step, whose listed bits are claimed to be there.
pub fn fails_claim(
    alloc: Global,
    rule: &Rule,
    after: &[u8],
    formula: &Formula,
) -> Result<Claim, AllocError>
    ensures { IfOk result (λ c. said c ≡ Faults.fails_claim rule.now.layout rule.now.bits after.now rule.now.allowed.items rule.now.limits.items rule.now.table.items formula.now) }
{
    let opposite = not(alloc, of_formula(alloc, rule, &[], formula)?)?;
    let fails = in_next_row(alloc, rule, after, opposite)?;
    module_and(alloc, rule, fails)
}
