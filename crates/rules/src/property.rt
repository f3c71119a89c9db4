// What is asked of rows, and the claim that tells it.
ghost use Rattle.std.specs.Prelude.{◌≡◌, IfOk};
ghost use Rattle.claims.specs.Trees.{said};
ghost use Rattle.rules.specs.Property.{claim_of};

use crate::changed::{changed_bits, named_bits};
use crate::claim::{allowed_claim, fails_claim, left_of, place_claim, stuck_claim};
use crate::rule::Rule;
use claims::tree::Claim;
use formulas::formula::Formula;
use rows::line::Pattern;
use std::alloc::{AllocError, Global};

/// What is asked of a row: it has a module and is allowed; it is, and each module waits; it is allowed, and the row after one step is not; it is allowed, and somewhere a module is as the pattern says; it is allowed, and the formula does not hold of it and the row after.
#[derive(Debug, Drop)]
pub enum Property {
    Allowed,
    Stuck,
    Left,
    Met(Pattern),
    Fails(Box<Formula>),
}

/// The claim that holds of the rows that have the property, and of nothing else. It fails for want of memory alone.
pub fn claim_of(alloc: Global, rule: &Rule, property: &Property) -> Result<Claim, AllocError>
    ensures { IfOk result (λ c. said c ≡ claim_of rule.now property.now) }
{
    match property {
        Property::Allowed => allowed_claim(alloc, rule),
        Property::Stuck => stuck_claim(alloc, rule),
        Property::Left => left_of(alloc, rule, &changed_bits(alloc, rule)?),
        Property::Met(pattern) => place_claim(alloc, rule, pattern.literals()),
        Property::Fails(formula) => {
            let after = named_bits(alloc, rule.bits, formula)?;
            fails_claim(alloc, rule, &after, formula)
        }
    }
}
