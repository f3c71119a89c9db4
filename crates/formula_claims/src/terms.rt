// What claims say of terms: that a set is the place, or in the set, that a term means.
ghost use Rattle.std.specs.Prelude.{◌≡◌, [], ◌∷◌, IfOk};
ghost use Rattle.formulas.specs.Names.{names_place, names_group};
ghost use Rattle.translation.specs.Numbers.{numbers, fresh};
ghost use Rattle.translation.specs.Translation;
ghost use Rattle.kinds.specs.declared.atom.Atom.TheVariants.{Related};
ghost use Rattle.claims.specs.Claims.{atom, not1, and1, some};
ghost use Rattle.claims.specs.Trees.{said};
ghost use Rattle.formula_claims.specs.Scope.{number_of};
ghost use Rattle.formula_claims.specs.Points;

use crate::scope::{Scope, fresh};
use crate::sure::{is_sure, is_sure_in};
use crate::tree::{
    and, and_not, is_before, is_first, lies, no_place, no_set, not, or, related, some_place,
    some_set,
};
use claims::tree::Claim;
use formulas::formula::{Group, Place};
use formulas::free::{push_group, push_place};
use formulas::name::Name;
use kinds::relation::Relation;
use std::alloc::{AllocError, Global};

// Set n, if it is a place, is the place that the term means.
#[cycle(terms)]
pub fn is_place(
    alloc: Global,
    place: &Place,
    scope: &Scope,
    n: usize,
) -> Result<Box<Claim>, AllocError>
    ensures { IfOk result (λ c. said c.value ≡ Translation.is_place place.now (number_of scope.now) n) }
{
    match place {
        Place::Named(x) => lies(alloc, n, scope.number(Name::OfPlace(*x))),
        Place::First => is_first(alloc, fresh(&[n], &[], scope), n),
        Place::Succ(t) => {
            let m = beside_place(alloc, n, t, scope)?;
            behind(alloc, t, scope, m, n)
        }
        Place::Prev(t) => {
            let m = beside_place(alloc, n, t, scope)?;
            let before = is_before(alloc, fresh(&[n], &[], scope), n, set_of(t, scope, m))?;
            let claim = about(alloc, t, scope, m, false, before)?;
            Ok(claim)
        }
        Place::Least(s) => {
            let m = beside_group(alloc, n, s, scope)?;
            is_end(alloc, s, scope, m, n, Relation::Before(m, n))
        }
        Place::Most(s) => {
            let m = beside_group(alloc, n, s, scope)?;
            is_end(alloc, s, scope, m, n, Relation::Before(n, m))
        }
    }
}

// Set n, if it is a place, is the end of the set that the term means: none of its places, as set m, is further out than n, as `beyond` says.
#[cycle(terms)]
fn is_end(
    alloc: Global,
    group: &Group,
    scope: &Scope,
    m: usize,
    n: usize,
    beyond: Relation,
) -> Result<Box<Claim>, AllocError>
    ensures { IfOk result (λ c. said c.value ≡ Translation.is_end m n (Translation.is_in group.now (number_of scope.now) n) (Translation.is_sure_in group.now) (Translation.is_in group.now (number_of scope.now) m) (atom (Related beyond))) }
{
    let in_n = is_in(alloc, group, scope, n)?;
    let in_m = is_in(alloc, group, scope, m)?;
    let outermost = is_outermost(alloc, in_n, m, in_m, beyond)?;
    let in_m = is_in(alloc, group, scope, m)?;
    let first_of_none = is_first_of_none(alloc, m, n, is_sure_in(group), in_m)?;
    or(alloc, outermost, first_of_none)
}

// The place of which in_n says that it is in a set is the outermost there: no place of the set, as
// in_m says of set m, is further out, as `beyond` says.
fn is_outermost(
    alloc: Global,
    in_n: Box<Claim>,
    m: usize,
    in_m: Box<Claim>,
    beyond: Relation,
) -> Result<Box<Claim>, AllocError>
    ensures { IfOk result (λ r. said r.value ≡ and1 (said in_n.value) (not1 (some m (and1 (atom (Related beyond)) (said in_m.value))))) }
{
    let further = and(alloc, related(alloc, beyond)?, in_m)?;
    let none_further = no_set(alloc, m, further)?;
    and(alloc, in_n, none_further)
}

// Set n, if it is a place, is place 0, and a set has no places, as in_m says of set m.
fn is_first_of_none(
    alloc: Global,
    m: usize,
    n: usize,
    sure: bool,
    in_m: Box<Claim>,
) -> Result<Box<Claim>, AllocError>
    ensures { IfOk result (λ r. said r.value ≡ and1 (Translation.is_first m n) (not1 (Translation.some_place sure m (said in_m.value)))) }
{
    let first = is_first(alloc, m, n)?;
    let empty = no_place(alloc, sure, m, in_m)?;
    and(alloc, first, empty)
}

// Set n, if it is a place, is in the set that the term means.
#[cycle(terms)]
pub fn is_in(
    alloc: Global,
    group: &Group,
    scope: &Scope,
    n: usize,
) -> Result<Box<Claim>, AllocError>
    ensures { IfOk result (λ c. said c.value ≡ Translation.is_in group.now (number_of scope.now) n) }
{
    match group {
        Group::Named(x) => lies(alloc, n, scope.number(Name::OfGroup(*x))),
        Group::Empty => not(alloc, related(alloc, Relation::Within(n, n))?),
        Group::Only(t) => is_place(alloc, t, scope, n),
        Group::Union(s, t) => {
            let in_s = is_in(alloc, s, scope, n)?;
            let in_t = is_in(alloc, t, scope, n)?;
            or(alloc, in_s, in_t)
        }
        Group::Inter(s, t) => {
            let in_s = is_in(alloc, s, scope, n)?;
            let in_t = is_in(alloc, t, scope, n)?;
            and(alloc, in_s, in_t)
        }
        Group::Minus(s, t) => {
            let in_s = is_in(alloc, s, scope, n)?;
            let in_t = is_in(alloc, t, scope, n)?;
            and_not(alloc, in_s, in_t)
        }
    }
}

// The lowest number that is neither n nor one of the place's names'.
fn beside_place(alloc: Global, n: usize, place: &Place, scope: &Scope) -> Result<usize, AllocError>
    ensures { IfOk result (λ m. m ≡ fresh (n ∷ numbers (number_of scope.now) (names_place place.now))) }
{
    let mut names = Vec::new(alloc);
    push_place(&mut names, place)?;
    Ok(fresh(&[n], &names, scope))
}

fn beside_group(alloc: Global, n: usize, group: &Group, scope: &Scope) -> Result<usize, AllocError>
    ensures { IfOk result (λ m. m ≡ fresh (n ∷ numbers (number_of scope.now) (names_group group.now))) }
{
    let mut names = Vec::new(alloc);
    push_group(&mut names, group)?;
    Ok(fresh(&[n], &names, scope))
}

// The set that stands for a place: its own if it has a name, else set m.
pub fn set_of(place: &Place, scope: &Scope, m: usize) -> usize
    ensures { result ≡ Points.set_of (number_of scope.now) place.now m }
{
    match place {
        Place::Named(x) => scope.number(Name::OfPlace(*x)),
        _ => m,
    }
}

// A claim about a place, as `set_of` gives its set: where that is set m, there is a place m that is
// the place. That it is a place is not said again where that or the claim is sure of it.
#[cycle(terms)]
pub fn about(
    alloc: Global,
    place: &Place,
    scope: &Scope,
    m: usize,
    sure: bool,
    claim: Box<Claim>,
) -> Result<Box<Claim>, AllocError>
    ensures { IfOk result (λ r. said r.value ≡ Points.about_set place.now m (Translation.is_place place.now (number_of scope.now) m) sure (said claim.value)) }
{
    match place {
        Place::Named(_) => Ok(claim),
        t => {
            let is_t = is_place(alloc, t, scope, m)?;
            let both = and(alloc, is_t, claim)?;
            some_place(alloc, is_sure(t) || sure, m, both)
        }
    }
}

// Set n is the place behind this one.
#[cycle(terms)]
fn behind(
    alloc: Global,
    place: &Place,
    scope: &Scope,
    m: usize,
    n: usize,
) -> Result<Box<Claim>, AllocError>
    ensures { IfOk result (λ r. said r.value ≡ Translation.behind (number_of scope.now) place.now m (Translation.is_place place.now (number_of scope.now) m) n) }
{
    match place {
        Place::Named(x) => related(alloc, Relation::Next(scope.number(Name::OfPlace(*x)), n)),
        t => {
            let is_t = is_place(alloc, t, scope, m)?;
            let both = and(alloc, is_t, related(alloc, Relation::Next(m, n))?)?;
            some_set(alloc, m, both)
        }
    }
}
