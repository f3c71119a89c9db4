// The names that are free in a formula.
ghost use Rattle.std.specs.Prelude.{◌≡◌, ◌++◌, OnOk, IfOk};
ghost use Rattle.formulas.specs.Names.{names_place, names_group, names, without};

use crate::formula::{Formula, Group, Place};
use crate::name::Name;
use std::alloc::{AllocError, Global};

// Puts the place's names behind those that are there.
#[cycle(terms)]
pub fn push_place(found: &mut Vec<Name>, place: &Place) -> Result<(), AllocError>
    ensures { OnOk result (found.new.items ≡ found.old.items ++ names_place place.now) }
{
    match place {
        Place::Named(x) => {
            found.push(Name::OfPlace(*x))?;
            Ok(())
        }
        Place::First => Ok(()),
        Place::Succ(t) | Place::Prev(t) => push_place(found, t),
        Place::Least(s) | Place::Most(s) => push_group(found, s),
    }
}

#[cycle(terms)]
pub fn push_group(found: &mut Vec<Name>, group: &Group) -> Result<(), AllocError>
    ensures { OnOk result (found.new.items ≡ found.old.items ++ names_group group.now) }
{
    match group {
        Group::Named(x) => {
            found.push(Name::OfGroup(*x))?;
            Ok(())
        }
        Group::Empty => Ok(()),
        Group::Only(t) => push_place(found, t),
        Group::Union(s, t) | Group::Inter(s, t) | Group::Minus(s, t) => {
            push_group(found, s)?;
            push_group(found, t)
        }
    }
}

// The names that are free in the formula, in the order in which they stand there, as often as they do.
pub fn free_names(alloc: Global, formula: &Formula) -> Result<Vec<Name>, AllocError>
    ensures { IfOk result (λ found. found.items ≡ names formula.now) }
{
    let mut found = Vec::new(alloc);
    push_formula(alloc, &mut found, formula)?;
    Ok(found)
}

#[cycle(formulas)]
fn push_formula(alloc: Global, found: &mut Vec<Name>, formula: &Formula) -> Result<(), AllocError>
    ensures { OnOk result (found.new.items ≡ found.old.items ++ names formula.now) }
{
    match formula {
        Formula::True => Ok(()),
        Formula::Same(s, t) | Formula::Less(s, t) => {
            push_place(found, s)?;
            push_place(found, t)
        }
        Formula::In(t, s) => {
            push_place(found, t)?;
            push_group(found, s)
        }
        Formula::Sub(s, t) => {
            push_group(found, s)?;
            push_group(found, t)
        }
        Formula::Count(s, _) => push_group(found, s),
        Formula::Not(a) => push_formula(alloc, found, a),
        Formula::And(a, b) | Formula::Or(a, b) | Formula::Implies(a, b) => {
            push_formula(alloc, found, a)?;
            push_formula(alloc, found, b)
        }
        Formula::Some1(x, a) | Formula::All1(x, a) => push_others(
            alloc,
            found,
            Name::OfPlace(*x),
            a,
        ),
        Formula::Some2(x, a) | Formula::All2(x, a) => push_others(
            alloc,
            found,
            Name::OfGroup(*x),
            a,
        ),
    }
}

// Puts the formula's names behind those that are there, without the one that a quantifier binds.
#[cycle(formulas)]
pub fn push_others(
    alloc: Global,
    found: &mut Vec<Name>,
    bound: Name,
    formula: &Formula,
) -> Result<(), AllocError>
    ensures { OnOk result (found.new.items ≡ found.old.items ++ without bound (names formula.now)) }
{
    let mut inner = Vec::new(alloc);
    push_formula(alloc, &mut inner, formula)?;
    push_without(found, bound, &inner)
}

fn push_without(found: &mut Vec<Name>, bound: Name, from: &[Name]) -> Result<(), AllocError>
    ensures { OnOk result (found.new.items ≡ found.old.items ++ without bound from.now) }
{
    for name in from {
        if *name != bound {
            found.push(*name)?;
        }
    }
    Ok(())
}
