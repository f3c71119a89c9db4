// The bytes of a formula's claim, or why there are none.
ghost use Rattle.std.specs.Prelude.{◌≡◌, ◌+◌, min, true, MatchResult, MatchOption, IfOk};
ghost use Rattle.formulas.specs.Names.{Among};
ghost use Rattle.translation.specs.Settles.{singles};
ghost use Rattle.claims.specs.declared.encode.Refusal.TheVariants.{OutOfMemory};
ghost use Rattle.formula_claims.specs.declared.claimed.Refusal.TheVariants.{Claim};
ghost use Rattle.claims.specs.Trees.{said};
ghost use Rattle.formula_claims.specs.Lengths;
ghost use Rattle.formula_claims.specs.Lengths.{places_length};
ghost use Rattle.formula_claims.specs.Listed.{listed};
ghost use Rattle.formula_claims.specs.Claimed.{Claimed, Refused, whole};

use crate::length::formula_length;
use crate::scope::{Scope, position};
use crate::sure::sure;
use crate::translate::translate;
use crate::tree::{and, related};
use claims::encode;
use claims::encode::MOST_BYTES;
use claims::tree::Claim;
use formulas::formula::Formula;
use formulas::free::free_names;
use formulas::name::Name;
use kinds::relation::Relation;
use std::alloc::{AllocError, Global};
use thiserror::Error;

// Why a formula gets no claim.
#[derive(Debug, Drop, Error)]
pub enum Refusal {
    #[error("a name of the formula is not among those listed")]
    Unlisted(Name),
    #[error(transparent)]
    Claim(encode::Refusal),
}

impl From<encode::Refusal> for Refusal {
    ghost from_gives = { λ r e. e ≡ Claim r };

    fn from(refusal: encode::Refusal) -> Refusal {
        Refusal::Claim(refusal)
    }
}

impl From<AllocError> for Refusal {
    ghost from_gives = { λ _ e. e ≡ Claim OutOfMemory };

    fn from(_e: AllocError) -> Refusal {
        Refusal::Claim(encode::Refusal::OutOfMemory)
    }
}

// The bytes of the formula's claim, for the call that judges claims. Each listed name is the set with the name's place in the list for a number.
pub fn claim_bytes(alloc: Global, formula: &Formula, names: &[Name]) -> Result<Vec<u8>, Refusal>
    ensures { MatchResult result (λ bytes. Claimed names.now formula.now bytes.items) (Refused names.now formula.now) }
{
    let free = free_names(alloc, formula)?;
    if let Some(name) = unlisted(&free, names) {
        return Err(Refusal::Unlisted(name));
    }
    let needed = bytes_needed(formula, names);
    if needed > MOST_BYTES {
        return Err(Refusal::Claim(encode::Refusal::TooManyBytes(needed)));
    }
    let claim = whole_claim(alloc, formula, names)?;
    let bytes = encode::encode(alloc, &*claim, names.len())?;
    Ok(bytes)
}

// A name that is not listed, if there is one.
fn unlisted(free: &[Name], names: &[Name]) -> Option<Name>
    ensures { MatchOption result ((x : Name) → Among x free.now → Among x names.now) (λ x. Among x free.now × (Among x names.now → ⊥)) }
{
    for name in free {
        if position(names, *name) == names.len() {
            return Some(*name);
        }
    }
    None
}

// How many bytes are needed: one for the number of sets, three for each listed place of which the formula's claim is not sure, and the formula's. This stops at usize::MAX.
fn bytes_needed(formula: &Formula, names: &[Name]) -> usize
    ensures { result ≡ min (Lengths.formula_length formula.now true + 1 + places_length formula.now names.now) usize.MAX }
{
    let mut needed = formula_length(formula, true).saturating_add(1);
    for name in names {
        if let Name::OfPlace(x) = name {
            if !sure(formula, true, *x) {
                needed = needed.saturating_add(3);
            }
        }
    }
    needed
}

// The claim, and that the listed places are places, where the formula's claim is not sure of them.
fn with_places(
    alloc: Global,
    formula: &Formula,
    claim: Box<Claim>,
    names: &[Name],
) -> Result<Box<Claim>, AllocError>
    ensures { IfOk result (λ r. said r.value ≡ singles (listed names.now) formula.now names.now (said claim.value)) }
{
    let mut whole = claim;
    for name in names {
        if let Name::OfPlace(x) = name {
            if !sure(formula, true, *x) {
                let place = related(alloc, Relation::Single(position(names, *name)))?;
                whole = and(alloc, place, whole)?;
            }
        }
    }
    Ok(whole)
}

fn whole_claim(alloc: Global, formula: &Formula, names: &[Name]) -> Result<Box<Claim>, AllocError>
    ensures { IfOk result (λ c. said c.value ≡ whole names.now formula.now) }
{
    let claim = translate(alloc, formula, &Scope::Free(names))?;
    with_places(alloc, formula, claim, names)
}
