// The claims that tell of the rows that show that a formula is not kept.
ghost use Rattle.std.specs.Prelude.{◌≡◌, IfOk};
ghost use Rattle.claims.specs.Trees.{said};
ghost use Rattle.keeping.specs.Breaches as breaches;
ghost use Rattle.kept_claims.specs.Breach.{claim_of};

use crate::kept::Keeping;
use claims::tree::{Claim, and, not};
use formulas::formula::Formula;
use formulas::free::free_names;
use keeping::moment::Moment;
use rules::changed::changed_named;
use rules::claim::{in_next_row, row_with};
use rules::formula::{of_formula, with_limits};
use rules::rule::Rule;
use std::alloc::{AllocError, Global};

// Each formula of the start holds of a row, and the part does not.
fn start_claim(
    alloc: Global,
    rule: &Rule,
    start: &[Formula],
    part: &Formula,
) -> Result<Claim, AllocError>
    ensures { IfOk result (λ c. said c ≡ breaches.start_claim rule.now.bits start.now part.now) }
{
    let opposite = not(alloc, of_formula(alloc, rule, &[], part)?)?;
    let begun = with_limits(alloc, rule, &[], start, opposite)?;
    row_with(alloc, rule, begun)
}

// The claim holds of a row, and the part does not of the row after it, whose listed bits are claimed to be there; the others are those of the row.
fn step_claim(
    alloc: Global,
    rule: &Rule,
    changed: &[u8],
    claim: &Formula,
    part: &Formula,
) -> Result<Claim, AllocError>
    ensures { IfOk result (λ c. said c ≡ breaches.step_claim rule.now.layout rule.now.bits changed.now rule.now.table.items claim.now part.now) }
{
    let opposite = not(alloc, of_formula(alloc, rule, changed, part)?)?;
    let broken = in_next_row(alloc, rule, changed, opposite)?;
    let kept = and(alloc, of_formula(alloc, rule, &[], claim)?, broken)?;
    row_with(alloc, rule, kept)
}

/// The claim that holds of the rows that show at that moment that the part does not follow, and of nothing else. It fails for want of memory alone.
pub fn claim_of(
    alloc: Global,
    keeping: &Keeping<'_>,
    part: &Formula,
    moment: Moment,
) -> Result<Claim, AllocError>
    ensures { IfOk result (λ c. said c ≡ claim_of keeping.now part.now moment) }
{
    let rule = keeping.rule;
    match moment {
        Moment::Start => start_claim(alloc, rule, keeping.start, part),
        Moment::Step => {
            let names = free_names(alloc, part)?;
            let changed = changed_named(alloc, rule.bits, &[], &names, &rule.table)?;
            step_claim(alloc, rule, &changed, &keeping.claim, part)
        }
    }
}
