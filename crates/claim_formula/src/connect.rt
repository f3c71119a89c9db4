// Formulas that are put together of others, as they read best: what is claimed together stands in one row, of which `true` is left out; what follows
// from several follows from them together; and where a place is only named to say that it is behind another and in a set, that is said of the other.
ghost use Rattle.std.specs.Prelude.{◌≡◌, ℕ, ◌≢◌, ◌⊎◌, ◌↔◌, suc, true, IfOk, IfSome};
ghost use Rattle.claims.specs.Claims.{has};
ghost use Rattle.formulas.specs.Meaning.{Env, Meaning, members, with_place};
ghost use Rattle.claim_formula.specs.Saying.{Means};
ghost use Rattle.claim_formula.specs.Lying.{LiesAs};

use formulas::formula::{Formula, Group, Place};
use std::alloc::{AllocError, Global};

/// The opposite.
pub fn not(alloc: Global, a: Box<Formula>) -> Result<Box<Formula>, AllocError>
    ensures { IfOk result (λ r. Means r.value (λ e. Meaning a.value e → ⊥)) }
{
    Ok(Box::new(alloc, Formula::Not(a))?)
}

/// Both.
pub fn both(alloc: Global, a: Box<Formula>, b: Box<Formula>) -> Result<Box<Formula>, AllocError>
    ensures { IfOk result (λ r. Means r.value (λ e. Meaning a.value e × Meaning b.value e)) }
{
    if let Formula::True = &*a {
        return Ok(b);
    }
    match Box::into_inner(b) {
        Formula::True => Ok(a),
        Formula::And(b, c) => {
            let front = both(alloc, a, b)?;
            Ok(Box::new(alloc, Formula::And(front, c))?)
        }
        b => {
            let b = Box::new(alloc, b)?;
            Ok(Box::new(alloc, Formula::And(a, b))?)
        }
    }
}

/// One of them.
pub fn either(alloc: Global, a: Box<Formula>, b: Box<Formula>) -> Result<Box<Formula>, AllocError>
    ensures { IfOk result (λ r. Means r.value (λ e. Meaning a.value e ⊎ Meaning b.value e)) }
{
    match Box::into_inner(b) {
        Formula::Or(b, c) => {
            let front = either(alloc, a, b)?;
            Ok(Box::new(alloc, Formula::Or(front, c))?)
        }
        b => {
            let b = Box::new(alloc, b)?;
            Ok(Box::new(alloc, Formula::Or(a, b))?)
        }
    }
}

/// The second follows from the first.
pub fn implies(alloc: Global, a: Box<Formula>, b: Box<Formula>) -> Result<Box<Formula>, AllocError>
    ensures { IfOk result (λ r. Means r.value (λ e. Meaning a.value e → Meaning b.value e)) }
{
    if let Formula::True = &*a {
        return Ok(b);
    }
    match Box::into_inner(b) {
        Formula::Implies(b, c) => {
            let front = both(alloc, a, b)?;
            Ok(Box::new(alloc, Formula::Implies(front, c))?)
        }
        b => {
            let b = Box::new(alloc, b)?;
            Ok(Box::new(alloc, Formula::Implies(a, b))?)
        }
    }
}

// The place that place x is said to be behind.
fn behind_of(x: u32, a: &Formula) -> Option<u32>
    ensures { IfSome result (λ p. (p ≢ x) × Means a.now (λ e. e.places x ≡ suc (e.places p))) }
{
    let Formula::Same(Place::Named(y), Place::Succ(t)) = a else {
        return None;
    };
    match &**t {
        Place::Named(p) if *y == x && *p != x => Some(*p),
        _ => None,
    }
}

// What is said of a place: that it is in a set, or that it is not.
#[derive(Drop)]
pub enum Lies {
    In(Group),
    Out(Group),
}

// The places that both sets have.
fn in_both(alloc: Global, g: Group, h: Group) -> Result<Group, AllocError>
    ensures { IfOk result (λ r. (e : Env) (i : ℕ) → (has (members r e) i ≡ true) ↔ ((has (members g e) i ≡ true) × (has (members h e) i ≡ true))) }
{
    Ok(Group::Inter(Box::new(alloc, g)?, Box::new(alloc, h)?))
}

// The places of the first that the second has not.
fn in_first(alloc: Global, g: Group, h: Group) -> Result<Group, AllocError>
    ensures { IfOk result (λ r. (e : Env) (i : ℕ) → (has (members r e) i ≡ true) ↔ ((has (members g e) i ≡ true) × (has (members h e) i ≡ true → ⊥))) }
{
    Ok(Group::Minus(Box::new(alloc, g)?, Box::new(alloc, h)?))
}

// The places that one of them has.
fn in_either(alloc: Global, g: Group, h: Group) -> Result<Group, AllocError>
    ensures { IfOk result (λ r. (e : Env) (i : ℕ) → (has (members r e) i ≡ true → ⊥) ↔ ((has (members g e) i ≡ true → ⊥) × (has (members h e) i ≡ true → ⊥))) }
{
    Ok(Group::Union(Box::new(alloc, g)?, Box::new(alloc, h)?))
}

// The same, of what is said by both.
fn both_lie(alloc: Global, l: Lies, m: Lies) -> Result<Lies, AllocError>
    ensures { IfOk result (λ r. (e : Env) (i : ℕ) → LiesAs r e i ↔ (LiesAs l e i × LiesAs m e i)) }
{
    match (l, m) {
        (Lies::In(g), Lies::In(h)) => Ok(Lies::In(in_both(alloc, g, h)?)),
        (Lies::In(g), Lies::Out(h)) => Ok(Lies::In(in_first(alloc, g, h)?)),
        (Lies::Out(g), Lies::In(h)) => Ok(Lies::In(in_first(alloc, h, g)?)),
        (Lies::Out(g), Lies::Out(h)) => Ok(Lies::Out(in_either(alloc, g, h)?)),
    }
}

// Where place x lies, if that is all that the formula says.
fn lies_of(alloc: Global, x: u32, a: &Formula) -> Result<Option<Lies>, AllocError>
    ensures { IfOk result (λ found. IfSome found (λ l. (e : Env) (i : ℕ) → Meaning a.now (with_place e x i) ↔ LiesAs l e i)) }
{
    match a {
        Formula::In(Place::Named(y), Group::Named(z)) if *y == x => {
            Ok(Some(Lies::In(Group::Named(*z))))
        }
        Formula::Not(b) => match lies_of(alloc, x, b)? {
            Some(Lies::In(g)) => Ok(Some(Lies::Out(g))),
            _ => Ok(None),
        },
        Formula::And(b, c) => {
            let Some(l) = lies_of(alloc, x, b)? else {
                return Ok(None);
            };
            match lies_of(alloc, x, c)? {
                Some(m) => Ok(Some(both_lie(alloc, l, m)?)),
                None => Ok(None),
            }
        }
        _ => Ok(None),
    }
}

// The place behind p lies so.
fn next_lies(alloc: Global, p: u32, l: Lies) -> Result<Box<Formula>, AllocError>
    ensures { IfOk result (λ r. Means r.value (λ e. LiesAs l e (suc (e.places p)))) }
{
    let behind = Place::Succ(Box::new(alloc, Place::Named(p))?);
    match l {
        Lies::In(g) => Ok(Box::new(alloc, Formula::In(behind, g))?),
        Lies::Out(g) => not(alloc, Box::new(alloc, Formula::In(behind, g))?),
    }
}

// What is said of place x, if it is said to be behind another.
fn shorter(
    alloc: Global,
    x: u32,
    is: &Formula,
    a: &Formula,
) -> Result<Option<Box<Formula>>, AllocError>
    ensures some { IfOk result (λ found. IfSome found (λ r. Means r.value (λ e. (i : ℕ) × (Meaning is.now (with_place e x i) × Meaning a.now (with_place e x i))))) }
    ensures all { IfOk result (λ found. IfSome found (λ r. Means r.value (λ e. (i : ℕ) → Meaning is.now (with_place e x i) → Meaning a.now (with_place e x i)))) }
{
    let Some(p) = behind_of(x, is) else {
        return Ok(None);
    };
    match lies_of(alloc, x, a)? {
        Some(l) => Ok(Some(next_lies(alloc, p, l)?)),
        None => Ok(None),
    }
}

/// Some place x is as both say.
pub fn some_place(
    alloc: Global,
    x: u32,
    a: Box<Formula>,
    b: Box<Formula>,
) -> Result<Box<Formula>, AllocError>
    ensures { IfOk result (λ r. Means r.value (λ e. (i : ℕ) × (Meaning a.value (with_place e x i) × Meaning b.value (with_place e x i)))) }
{
    if let Some(short) = shorter(alloc, x, &a, &b)? {
        return Ok(short);
    }
    let inside = both(alloc, a, b)?;
    Ok(Box::new(alloc, Formula::Some1(x, inside))?)
}

/// Each place x that is as the first says is as the second says.
pub fn all_places(
    alloc: Global,
    x: u32,
    a: Box<Formula>,
    b: Box<Formula>,
) -> Result<Box<Formula>, AllocError>
    ensures { IfOk result (λ r. Means r.value (λ e. (i : ℕ) → Meaning a.value (with_place e x i) → Meaning b.value (with_place e x i))) }
{
    if let Some(short) = shorter(alloc, x, &a, &b)? {
        return Ok(short);
    }
    let inside = implies(alloc, a, b)?;
    Ok(Box::new(alloc, Formula::All1(x, inside))?)
}
