// The formula of a claim. A set that is bound is written as a place where the claim that it is bound in holds only if it has exactly one.
// The opposite of a claim is not written with `~` before the whole where its last part is an opposite itself: of several claimed together the last
// follows from the others, or one of the opposites holds, and of some place or set the opposite holds of each.
ghost use Rattle.std.specs.Prelude.{◌≡◌, ◌↔◌, ℕ, Bool, true, IfOk};
ghost use Rattle.words.specs.Words.{Word, sets};
ghost use Rattle.claims.specs.Claims.{not1, and1, some as some1, Of, has};
ghost use Rattle.claims.specs.Trees.{said};
ghost use Rattle.formulas.specs.Meaning.{Env, Meaning};
ghost use Rattle.claim_formula.specs.Forced.{forces as is_forced};
ghost use Rattle.claim_formula.specs.Saying.{Says, is_place, bound};

use crate::connect;
use crate::connect::{both, either, implies, not};
use crate::forced::forces;
use crate::points::{number, of_atom};
use crate::refusal::Refusal;
use crate::scope::Scope;
use claims::tree::Claim;
use formulas::formula::Formula;
use std::alloc::Global;

// Whether the opposite of a claim reads without `~` before the whole.
fn ends_in_not(claim: &Claim) -> bool {
    match claim {
        Claim::Atom(_) => false,
        Claim::Not(_) => true,
        Claim::And(_, c) | Claim::Some(_, c) => ends_in_not(c),
    }
}

fn is_not(claim: &Claim) -> bool {
    match claim {
        Claim::Not(_) => true,
        _ => false,
    }
}

// A formula for the claim.
#[cycle(saying)]
fn holds(alloc: Global, claim: &Claim, scope: &Scope) -> Result<Box<Formula>, Refusal>
    ensures { IfOk result (λ r. Says (is_place scope.now) r.value (said claim.now)) }
{
    match claim {
        Claim::Atom(a) => of_atom(alloc, *a, scope),
        Claim::Not(c) => fails(alloc, c, scope),
        Claim::And(c, d) => {
            let a = holds(alloc, c, scope)?;
            let b = holds(alloc, d, scope)?;
            Ok(both(alloc, a, b)?)
        }
        Claim::Some(x, c) => some(alloc, *x, c, scope),
    }
}

// A formula for the claim's opposite.
#[cycle(saying)]
fn fails(alloc: Global, claim: &Claim, scope: &Scope) -> Result<Box<Formula>, Refusal>
    ensures { IfOk result (λ r. Says (is_place scope.now) r.value (not1 (said claim.now))) }
{
    match claim {
        Claim::Atom(a) => Ok(not(alloc, of_atom(alloc, *a, scope)?)?),
        Claim::Not(c) => {
            let a = holds(alloc, c, scope)?;
            Ok(a)
        }
        Claim::And(c, d) => {
            if !ends_in_not(d) {
                let a = holds(alloc, c, scope)?;
                let b = holds(alloc, d, scope)?;
                return Ok(not(alloc, both(alloc, a, b)?)?);
            }
            let b = fails(alloc, d, scope)?;
            match &**c {
                Claim::Not(c) => {
                    let a = holds(alloc, c, scope)?;
                    Ok(either(alloc, a, b)?)
                }
                c => {
                    let a = holds(alloc, c, scope)?;
                    Ok(implies(alloc, a, b)?)
                }
            }
        }
        Claim::Some(x, c) => none(alloc, *x, c, scope),
    }
}

// Some place x is as the claim says.
#[cycle(saying)]
fn some_place(alloc: Global, x: u32, c: &Claim, scope: &Scope) -> Result<Box<Formula>, Refusal>
    ensures { IfOk result (λ r. (σ : ℕ → Bool) → is_place scope.now ≡ bound σ x true → is_forced x (said c.now) ≡ true → Says σ r.value (some1 x (said c.now))) }
{
    if let Claim::And(c, d) = c {
        let a = holds(alloc, c, scope)?;
        let b = holds(alloc, d, scope)?;
        let whole = connect::some_place(alloc, x, a, b)?;
        return Ok(whole);
    }
    let a = holds(alloc, c, scope)?;
    Ok(Box::new(alloc, Formula::Some1(x, a))?)
}

// Each place x is as the claim's opposite says.
#[cycle(saying)]
fn no_place(alloc: Global, x: u32, c: &Claim, scope: &Scope) -> Result<Box<Formula>, Refusal>
    ensures { IfOk result (λ r. (σ : ℕ → Bool) → is_place scope.now ≡ bound σ x true → is_forced x (said c.now) ≡ true → Says σ r.value (not1 (some1 x (said c.now)))) }
{
    if let Claim::And(c, d) = c {
        if !is_not(c) {
            let a = holds(alloc, c, scope)?;
            let b = fails(alloc, d, scope)?;
            let whole = connect::all_places(alloc, x, a, b)?;
            return Ok(whole);
        }
    }
    let a = fails(alloc, c, scope)?;
    Ok(Box::new(alloc, Formula::All1(x, a))?)
}

// Some set x, or some place.
#[cycle(saying)]
fn some(alloc: Global, x: usize, c: &Claim, scope: &Scope) -> Result<Box<Formula>, Refusal>
    ensures { IfOk result (λ r. Says (is_place scope.now) r.value (some1 x (said c.now))) }
{
    let n = number(x)?;
    if forces(x, c) {
        let whole = some_place(alloc, n, c, &Scope::Place(x, &*scope))?;
        return Ok(whole);
    }
    let a = holds(alloc, c, &Scope::Set(x, &*scope))?;
    Ok(Box::new(alloc, Formula::Some2(n, a))?)
}

// No set x, or no place.
#[cycle(saying)]
fn none(alloc: Global, x: usize, c: &Claim, scope: &Scope) -> Result<Box<Formula>, Refusal>
    ensures { IfOk result (λ r. Says (is_place scope.now) r.value (not1 (some1 x (said c.now)))) }
{
    if !ends_in_not(c) {
        let a = some(alloc, x, c, scope)?;
        let whole = not(alloc, a)?;
        return Ok(whole);
    }
    let n = number(x)?;
    if forces(x, c) {
        let whole = no_place(alloc, n, c, &Scope::Place(x, &*scope))?;
        return Ok(whole);
    }
    let a = fails(alloc, c, &Scope::Set(x, &*scope))?;
    Ok(Box::new(alloc, Formula::All2(n, a))?)
}

/// A formula that means the claim. Set x of the claim is the set named x. An error where a set's number has more than 32 bits, and for memory.
pub fn formula_of(alloc: Global, claim: &Claim) -> Result<Box<Formula>, Refusal>
    ensures { IfOk result (λ r. (w : Word) (e : Env) → ((x i : ℕ) → sets w x i ≡ has (e.groups x) i) → Meaning r.value e ↔ Of (said claim.now) w) }
{
    let formula = holds(alloc, claim, &Scope::Free)?;
    Ok(formula)
}
