// Claims without parts as formulas. A set that is written as a place is that place; of another set it is said that it has one place, which gets the
// set's number for a name: a place and a set of the same number are two names.
ghost use Rattle.std.specs.Prelude.{◌≡◌, ℕ, suc, ◌<◌, true, IfOk};
ghost use Rattle.claims.specs.Claims.{atom, within as is_within, single as is_single, next as is_next, before as is_before, multiple, has};
ghost use Rattle.claims.specs.Places.{one};
ghost use Rattle.formulas.specs.Meaning.{Meaning};
ghost use Rattle.kinds.specs.declared.atom.Atom.TheVariants.{Related};
ghost use Rattle.claim_formula.specs.Saying.{Means, Says, Point, is_place};

use crate::connect::{both, not};
use crate::refusal::Refusal;
use crate::scope::Scope;
use formulas::formula::{Formula, Group, Place};
use kinds::atom::Atom;
use kinds::multiple::{Multiple, Remainder};
use kinds::relation::Relation;
use std::alloc::{AllocError, Global};

/// A set's number as a name's.
pub fn number(x: usize) -> Result<u32, Refusal>
    ensures { IfOk result (λ n. n ≡ x) }
{
    match u32::try_from(x) {
        Ok(n) => Ok(n),
        Err(_) => Err(Refusal::LargeNumber(x)),
    }
}

// Place x is the one place of set x.
fn is_point(alloc: Global, x: u32) -> Result<Box<Formula>, AllocError>
    ensures { IfOk result (λ r. Means r.value (λ e. (has (e.groups x) (e.places x) ≡ true) × ((j : ℕ) → has (e.groups x) j ≡ true → has (one (e.places x)) j ≡ true))) }
{
    let only = Group::Only(Box::new(alloc, Place::Named(x))?);
    let no_other = Box::new(alloc, Formula::Sub(Group::Named(x), only))?;
    let there = Box::new(alloc, Formula::In(Place::Named(x), Group::Named(x)))?;
    both(alloc, there, no_other)
}

// The formula, of place x: where set x is written as a set, of its one place.
fn with_point(
    alloc: Global,
    x: u32,
    scope: &Scope,
    a: Box<Formula>,
) -> Result<Box<Formula>, AllocError>
    ensures { IfOk result (λ r. Means r.value (Point (is_place scope.now x) x (Meaning a.value))) }
{
    if scope.is_place(x as usize) {
        return Ok(a);
    }
    let of_it = both(alloc, is_point(alloc, x)?, a)?;
    Ok(Box::new(alloc, Formula::Some1(x, of_it))?)
}

fn within(alloc: Global, x: u32, y: u32, scope: &Scope) -> Result<Box<Formula>, AllocError>
    ensures { IfOk result (λ r. Says (is_place scope.now) r.value (is_within x y)) }
{
    if x == y {
        return Ok(Box::new(alloc, Formula::True)?);
    }
    match (scope.is_place(x as usize), scope.is_place(y as usize)) {
        (true, true) => Ok(Box::new(alloc, Formula::Same(Place::Named(x), Place::Named(y)))?),
        (true, false) => Ok(Box::new(alloc, Formula::In(Place::Named(x), Group::Named(y)))?),
        (false, true) => {
            let only = Group::Only(Box::new(alloc, Place::Named(y))?);
            Ok(Box::new(alloc, Formula::Sub(Group::Named(x), only))?)
        }
        (false, false) => Ok(Box::new(alloc, Formula::Sub(Group::Named(x), Group::Named(y)))?),
    }
}

fn single(alloc: Global, x: u32, scope: &Scope) -> Result<Box<Formula>, AllocError>
    ensures { IfOk result (λ r. Says (is_place scope.now) r.value (is_single x)) }
{
    let whole = with_point(alloc, x, scope, Box::new(alloc, Formula::True)?)?;
    Ok(whole)
}

// Place y is the one behind place x.
fn behind(alloc: Global, x: u32, y: u32) -> Result<Box<Formula>, AllocError>
    ensures { IfOk result (λ r. Means r.value (λ e. e.places y ≡ suc (e.places x))) }
{
    let place = Place::Succ(Box::new(alloc, Place::Named(x))?);
    Ok(Box::new(alloc, Formula::Same(Place::Named(y), place))?)
}

// Place y is further on than place x.
fn further(alloc: Global, x: u32, y: u32) -> Result<Box<Formula>, AllocError>
    ensures { IfOk result (λ r. Means r.value (λ e. e.places x < e.places y)) }
{
    Ok(Box::new(alloc, Formula::Less(Place::Named(x), Place::Named(y)))?)
}

fn next(alloc: Global, x: u32, y: u32, scope: &Scope) -> Result<Box<Formula>, AllocError>
    ensures { IfOk result (λ r. Says (is_place scope.now) r.value (is_next x y)) }
{
    let part = behind(alloc, x, y)?;
    let of_second = with_point(alloc, y, scope, part)?;
    let whole = with_point(alloc, x, scope, of_second)?;
    Ok(whole)
}

fn before(alloc: Global, x: u32, y: u32, scope: &Scope) -> Result<Box<Formula>, AllocError>
    ensures { IfOk result (λ r. Says (is_place scope.now) r.value (is_before x y)) }
{
    let part = further(alloc, x, y)?;
    let of_second = with_point(alloc, y, scope, part)?;
    let whole = with_point(alloc, x, scope, of_second)?;
    Ok(whole)
}

fn of_relation(alloc: Global, relation: Relation, scope: &Scope) -> Result<Box<Formula>, Refusal>
    ensures { IfOk result (λ r. Says (is_place scope.now) r.value (atom (Related relation))) }
{
    match relation {
        Relation::Within(x, y) => Ok(within(alloc, number(x)?, number(y)?, scope)?),
        Relation::Single(x) => Ok(single(alloc, number(x)?, scope)?),
        Relation::Next(x, y) => Ok(next(alloc, number(x)?, number(y)?, scope)?),
        Relation::Before(x, y) => Ok(before(alloc, number(x)?, number(y)?, scope)?),
    }
}

// A set that is written as a place has one place: as many as the remainder says if that leaves 1.
fn counted(
    alloc: Global,
    x: u32,
    remainder: Remainder,
    scope: &Scope,
) -> Result<Box<Formula>, AllocError>
    ensures { IfOk result (λ r. Says (is_place scope.now) r.value (multiple (record { remainder = remainder; set = x }))) }
{
    if !scope.is_place(x as usize) {
        return Ok(Box::new(alloc, Formula::Count(Group::Named(x), remainder))?);
    }
    let always = Box::new(alloc, Formula::True)?;
    if remainder.rest == 1 {
        return Ok(always);
    }
    let never = not(alloc, always)?;
    Ok(never)
}

/// The formula of a claim without parts.
pub fn of_atom(alloc: Global, a: Atom, scope: &Scope) -> Result<Box<Formula>, Refusal>
    ensures { IfOk result (λ r. Says (is_place scope.now) r.value (atom a)) }
{
    match a {
        Atom::Related(relation) => of_relation(alloc, relation, scope),
        Atom::Counted(Multiple { remainder, set }) => {
            Ok(counted(alloc, number(set)?, remainder, scope)?)
        }
    }
}
