// A formula once more, which means the same and has the same names.
ghost use Rattle.std.specs.Prelude.{◌≡◌, ◌↔◌, IfOk};
ghost use Rattle.formulas.specs.Meaning.{Env, Meaning, members, value};
ghost use Rattle.formulas.specs.Names.{names, names_group, names_place};

use formulas::formula::{Formula, Group, Place};
use std::alloc::{AllocError, Global};

#[cycle(terms)]
fn copy_place(alloc: Global, place: &Place) -> Result<Place, AllocError>
    ensures value { IfOk result (λ t. (e : Env) → value t e ≡ value place.now e) }
    ensures names { IfOk result (λ t. names_place t ≡ names_place place.now) }
{
    Ok(match place {
        Place::Named(x) => Place::Named(*x),
        Place::First => Place::First,
        Place::Succ(t) => Place::Succ(Box::new(alloc, copy_place(alloc, t)?)?),
        Place::Prev(t) => Place::Prev(Box::new(alloc, copy_place(alloc, t)?)?),
        Place::Least(s) => Place::Least(Box::new(alloc, copy_group(alloc, s)?)?),
        Place::Most(s) => Place::Most(Box::new(alloc, copy_group(alloc, s)?)?),
    })
}

#[cycle(terms)]
fn copy_group(alloc: Global, group: &Group) -> Result<Group, AllocError>
    ensures members { IfOk result (λ s. (e : Env) → members s e ≡ members group.now e) }
    ensures names { IfOk result (λ s. names_group s ≡ names_group group.now) }
{
    Ok(match group {
        Group::Named(x) => Group::Named(*x),
        Group::Empty => Group::Empty,
        Group::Only(t) => Group::Only(Box::new(alloc, copy_place(alloc, t)?)?),
        Group::Union(s, t) => {
            let s = Box::new(alloc, copy_group(alloc, s)?)?;
            Group::Union(s, Box::new(alloc, copy_group(alloc, t)?)?)
        }
        Group::Inter(s, t) => {
            let s = Box::new(alloc, copy_group(alloc, s)?)?;
            Group::Inter(s, Box::new(alloc, copy_group(alloc, t)?)?)
        }
        Group::Minus(s, t) => {
            let s = Box::new(alloc, copy_group(alloc, s)?)?;
            Group::Minus(s, Box::new(alloc, copy_group(alloc, t)?)?)
        }
    })
}

#[cycle(formulas)]
fn boxed(alloc: Global, formula: &Formula) -> Result<Box<Formula>, AllocError>
    ensures means { IfOk result (λ f. (e : Env) → Meaning f.value e ↔ Meaning formula.now e) }
    ensures names { IfOk result (λ f. names f.value ≡ names formula.now) }
{
    Ok(Box::new(alloc, copy(alloc, formula)?)?)
}

/// The formula once more. Fails for memory alone.
#[cycle(formulas)]
pub fn copy(alloc: Global, formula: &Formula) -> Result<Formula, AllocError>
    ensures means { IfOk result (λ f. (e : Env) → Meaning f e ↔ Meaning formula.now e) }
    ensures names { IfOk result (λ f. names f ≡ names formula.now) }
{
    Ok(match formula {
        Formula::True => Formula::True,
        Formula::Same(s, t) => Formula::Same(copy_place(alloc, s)?, copy_place(alloc, t)?),
        Formula::Less(s, t) => Formula::Less(copy_place(alloc, s)?, copy_place(alloc, t)?),
        Formula::In(t, s) => Formula::In(copy_place(alloc, t)?, copy_group(alloc, s)?),
        Formula::Sub(s, t) => Formula::Sub(copy_group(alloc, s)?, copy_group(alloc, t)?),
        Formula::Count(s, remainder) => Formula::Count(copy_group(alloc, s)?, *remainder),
        Formula::Not(a) => Formula::Not(boxed(alloc, a)?),
        Formula::And(a, b) => Formula::And(boxed(alloc, a)?, boxed(alloc, b)?),
        Formula::Or(a, b) => Formula::Or(boxed(alloc, a)?, boxed(alloc, b)?),
        Formula::Implies(a, b) => Formula::Implies(boxed(alloc, a)?, boxed(alloc, b)?),
        Formula::Some1(x, a) => Formula::Some1(*x, boxed(alloc, a)?),
        Formula::All1(x, a) => Formula::All1(*x, boxed(alloc, a)?),
        Formula::Some2(x, a) => Formula::Some2(*x, boxed(alloc, a)?),
        Formula::All2(x, a) => Formula::All2(*x, boxed(alloc, a)?),
    })
}
