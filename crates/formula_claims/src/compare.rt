// The claims that compare terms: that two are the same place, that one comes before another, that a
// place is in a set, that a set is within another; or their opposites, where they are not to hold.
ghost use Rattle.std.specs.Prelude.{◌≡◌, true, ◌∷◌, ◌++◌, IfOk};
ghost use Rattle.claims.specs.Claims.{not1, some as some1, within as within1};
ghost use Rattle.claims.specs.Trees.{said};
ghost use Rattle.formulas.specs.Names.{names_place, names_group};
ghost use Rattle.translation.specs.Numbers.{numbers, fresh};
ghost use Rattle.translation.specs.Translation;
ghost use Rattle.formula_claims.specs.Scope.{number_of};

use crate::scope::{Scope, fresh};
use crate::sure::{is_sure, is_sure_in};
use crate::terms::{about, is_in, is_place, set_of};
use crate::tree::{and, and_not, lies, no_place, no_set, related, signed, signed_related};
use claims::tree::Claim;
use formulas::formula::{Formula, Group, Place};
use formulas::free::{push_group, push_place};
use formulas::name::Name;
use kinds::relation::Relation;
use std::alloc::{AllocError, Global};

// Both are the same place.
pub fn same(
    alloc: Global,
    s: &Place,
    t: &Place,
    holds: bool,
    scope: &Scope,
) -> Result<Box<Claim>, AllocError>
    ensures { IfOk result (λ c. said c.value ≡ Translation.claim_as (Formula.Same s.now t.now) holds (number_of scope.now)) }
{
    if let Place::Named(x) = s {
        let is_t = is_place(alloc, t, scope, scope.number(Name::OfPlace(*x)))?;
        return signed(alloc, holds, is_t);
    }
    let mut names = Vec::new(alloc);
    push_place(&mut names, s)?;
    push_place(&mut names, t)?;
    let m = fresh(&[], &names, scope);
    let is_s = is_place(alloc, s, scope, set_of(t, scope, m))?;
    let claim = about(alloc, t, scope, m, is_sure(s), is_s)?;
    signed(alloc, holds, claim)
}

// The first place comes before the second.
pub fn less(
    alloc: Global,
    s: &Place,
    t: &Place,
    holds: bool,
    scope: &Scope,
) -> Result<Box<Claim>, AllocError>
    ensures { IfOk result (λ c. said c.value ≡ Translation.claim_as (Formula.Less s.now t.now) holds (number_of scope.now)) }
{
    let mut names = Vec::new(alloc);
    push_place(&mut names, s)?;
    push_place(&mut names, t)?;
    let m = fresh(&[], &names, scope);
    let n = fresh(&[m], &names, scope);
    let before = related(
        alloc,
        Relation::Before(set_of(s, scope, m), set_of(t, scope, n)),
    )?;
    let before_t = about(alloc, t, scope, n, true, before)?;
    let claim = about(alloc, s, scope, m, true, before_t)?;
    signed(alloc, holds, claim)
}

// The place lies in the set.
pub fn lies_in(
    alloc: Global,
    t: &Place,
    s: &Group,
    holds: bool,
    scope: &Scope,
) -> Result<Box<Claim>, AllocError>
    ensures { IfOk result (λ c. said c.value ≡ Translation.claim_as (Formula.In t.now s.now) holds (number_of scope.now)) }
{
    let mut names = Vec::new(alloc);
    push_place(&mut names, t)?;
    push_group(&mut names, s)?;
    let m = fresh(&[], &names, scope);
    let in_s = is_in(alloc, s, scope, set_of(t, scope, m))?;
    let claim = about(alloc, t, scope, m, is_sure_in(s), in_s)?;
    signed(alloc, holds, claim)
}

// Every place of s is one of t.
pub fn lies_within(
    alloc: Global,
    s: &Group,
    t: &Group,
    holds: bool,
    scope: &Scope,
) -> Result<Box<Claim>, AllocError>
    ensures { IfOk result (λ c. said c.value ≡ Translation.claim_as (Formula.Sub s.now t.now) holds (number_of scope.now)) }
{
    let mut names = Vec::new(alloc);
    push_group(&mut names, s)?;
    push_group(&mut names, t)?;
    let m = fresh(&[], &names, scope);
    let claim = within(alloc, s, t, scope, m)?;
    signed(alloc, holds, claim)
}

// Every place of s is one of t; m is a number that no name of theirs has.
fn within(
    alloc: Global,
    s: &Group,
    t: &Group,
    scope: &Scope,
    m: usize,
) -> Result<Box<Claim>, AllocError>
    ensures { IfOk result (λ c. said c.value ≡ Translation.is_within (number_of scope.now) s.now t.now m) }
{
    match s {
        Group::Named(x) => set_within(alloc, scope.number(Name::OfGroup(*x)), t, scope, m),
        Group::Empty => related(alloc, Relation::Within(0, 0)),
        Group::Union(r, s) => {
            let all_r = within(alloc, r, t, scope, m)?;
            let all_s = within(alloc, s, t, scope, m)?;
            and(alloc, all_r, all_s)
        }
        Group::Only(p) => match &**p {
            Place::Named(x) => set_within(alloc, scope.number(Name::OfPlace(*x)), t, scope, m),
            p => {
                let is_p = is_place(alloc, p, scope, m)?;
                none_outside(alloc, is_sure(p), is_p, t, scope, m)
            }
        },
        _ => {
            let in_s = is_in(alloc, s, scope, m)?;
            none_outside(alloc, is_sure_in(s), in_s, t, scope, m)
        }
    }
}

// Every place of set n is one of t.
pub fn set_within(
    alloc: Global,
    n: usize,
    t: &Group,
    scope: &Scope,
    m: usize,
) -> Result<Box<Claim>, AllocError>
    ensures { IfOk result (λ c. said c.value ≡ Translation.set_within (number_of scope.now) n t.now m) }
{
    match t {
        Group::Named(y) => related(alloc, Relation::Within(n, scope.number(Name::OfGroup(*y)))),
        Group::Empty => is_empty(alloc, n, m),
        Group::Inter(s, t) => {
            let all_s = set_within(alloc, n, s, scope, m)?;
            let all_t = set_within(alloc, n, t, scope, m)?;
            and(alloc, all_s, all_t)
        }
        Group::Only(p) => match &**p {
            Place::Named(y) => related(alloc, Relation::Within(n, scope.number(Name::OfPlace(*y)))),
            _ => each_within(alloc, n, t, scope, m),
        },
        _ => each_within(alloc, n, t, scope, m),
    }
}

// Set n has no place, as set m.
fn is_empty(alloc: Global, n: usize, m: usize) -> Result<Box<Claim>, AllocError>
    ensures { IfOk result (λ c. said c.value ≡ not1 (some1 m (not1 (within1 n m)))) }
{
    let outside = signed_related(alloc, false, Relation::Within(n, m))?;
    no_set(alloc, m, outside)
}

// Each place of set n, as set m, is one of t.
fn each_within(
    alloc: Global,
    n: usize,
    t: &Group,
    scope: &Scope,
    m: usize,
) -> Result<Box<Claim>, AllocError>
    ensures { IfOk result (λ c. said c.value ≡ Translation.each_in (number_of scope.now) true (Translation.lies m n) t.now m) }
{
    let in_n = lies(alloc, m, n)?;
    none_outside(alloc, true, in_n, t, scope, m)
}

// No place m of which the claim holds is outside of t; sure says whether the claim is sure of it.
fn none_outside(
    alloc: Global,
    sure: bool,
    claim: Box<Claim>,
    t: &Group,
    scope: &Scope,
    m: usize,
) -> Result<Box<Claim>, AllocError>
    ensures { IfOk result (λ c. said c.value ≡ Translation.each_in (number_of scope.now) sure (said claim.value) t.now m) }
{
    let in_t = is_in(alloc, t, scope, m)?;
    let outside = and_not(alloc, claim, in_t)?;
    no_place(alloc, sure, m, outside)
}
