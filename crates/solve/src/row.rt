// What is asked of the declared names of a text that speaks of a row: that their places and sets are the row's, and that the row has no hole. Of a ring the
// same is asked: its places are those of a row, and it is the text that goes round. What is said here of a row is said of both.
ghost use Rattle.std.specs.Prelude.{◌≡◌, ◌++◌, ◌↔◌, true, cond, suc, [], IfOk, OnOk};
ghost use Rattle.claims.specs.Claims.{has};
ghost use Rattle.formulas.specs.Meaning.{Env, Meaning};
ghost use Rattle.resolve.specs.Asks.{free as free_of};
ghost use Rattle.solve.specs.Questions.{InRow, InRowIf, other, others, row_from, row_name};

use crate::stop::Stop;
use formulas::formula::{Formula, Group, Place};
use formulas::name::Name;
use resolve::bounds::bound;
use resolve::built::{and, every_place, implies, lies_in, succ};
use resolve::scope::{Free, Kind};
use std::alloc::{AllocError, Global};
use trees::tree::Sort;

// The name of a declared place or set behind those that are there; the row is named apart.
fn push_other(names: &mut Vec<Name>, kind: Kind, number: u32) -> Result<(), AllocError>
    ensures { OnOk result (names.new.items ≡ names.old.items ++ other kind number) }
{
    match kind {
        Kind::Place => {
            names.push(Name::OfPlace(number))?;
            Ok(())
        }
        Kind::Set => {
            names.push(Name::OfGroup(number))?;
            Ok(())
        }
        Kind::Row => Ok(()),
    }
}

/// The declared places and sets behind those that are there, as formulas number them from a number on, and the number of the row, where one is declared.
pub fn push_others(
    names: &mut Vec<Name>,
    free: &[Free<'_>],
    number: u32,
) -> Result<Option<u32>, Stop>
    ensures names { OnOk result (names.new.items ≡ names.old.items ++ others number (free_of free.now)) }
    ensures row { IfOk result (λ row. row ≡ row_from number (free_of free.now)) }
{
    let [first, rest @ ..] = free else {
        return Ok(None);
    };
    push_other(names, first.kind, number)?;
    let Some(next) = number.checked_add(1) else {
        return Err(Stop::Memory);
    };
    let row = push_others(names, rest, next)?;
    match first.kind {
        Kind::Row => Ok(Some(number)),
        Kind::Place | Kind::Set => Ok(row),
    }
}

/// The row's name behind those that are there, if there is a row.
pub fn push_row(names: &mut Vec<Name>, row: Option<u32>) -> Result<(), AllocError>
    ensures { OnOk result (names.new.items ≡ names.old.items ++ row_name row) }
{
    if let Some(row) = row {
        names.push(Name::OfGroup(row))?;
    }
    Ok(())
}

// A place, or the next one, is one of the row.
fn place_in(alloc: Global, next: bool, row: u32) -> Result<Box<Formula>, AllocError>
    ensures { IfOk result (λ f. (e : Env) → Meaning f.value e ↔ (has (e.groups row) (cond next (suc (e.places 0)) (e.places 0)) ≡ true)) }
{
    let mut place = Box::new(alloc, Place::Named(0))?;
    if next {
        place = succ(alloc, place)?;
    }
    let places = Box::new(alloc, Group::Named(row))?;
    lies_in(alloc, place, places)
}

// With each place that comes behind another the row has the one before it.
fn without_hole(alloc: Global, row: u32) -> Result<Box<Formula>, AllocError>
    ensures { IfOk result (λ f. (e : Env) → Meaning f.value e ↔ InRow row [] e) }
{
    let next = place_in(alloc, true, row)?;
    let here = place_in(alloc, false, row)?;
    let closed = implies(alloc, next, here)?;
    every_place(alloc, 0, closed)
}

// The places and sets are the row's, and it has no hole.
fn in_row(alloc: Global, row: u32, names: &[Name]) -> Result<Box<Formula>, AllocError>
    ensures { IfOk result (λ f. (e : Env) → Meaning f.value e ↔ InRow row names.now e) }
{
    let [first, rest @ ..] = names else {
        return without_hole(alloc, row);
    };
    let inside = match first {
        Name::OfPlace(x) => bound(alloc, Sort::Place, *x, row)?,
        Name::OfGroup(x) => bound(alloc, Sort::Set, *x, row)?,
    };
    let others = in_row(alloc, row, rest)?;
    and(alloc, inside, others)
}

/// A formula, and where there is a row, that the places and sets are the row's.
pub fn in_row_if(
    alloc: Global,
    row: Option<u32>,
    names: &[Name],
    formula: Box<Formula>,
) -> Result<Box<Formula>, AllocError>
    ensures { IfOk result (λ f. (e : Env) → Meaning f.value e ↔ (InRowIf row names.now e × Meaning formula.value e)) }
{
    match row {
        None => Ok(formula),
        Some(row) => {
            let inside = in_row(alloc, row, names)?;
            and(alloc, inside, formula)
        }
    }
}
