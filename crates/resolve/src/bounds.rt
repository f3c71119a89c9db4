// Formulas of some place or set, or of every one, and where a row or a ring is spoken of, of those of it. Of a row: `ex1 p: F` is then `ex1 p: p in row & F`, and
// `all1 p: F` is `all1 p: p in row => F`; of sets it is said that they lie within the row.
ghost use Rattle.std.specs.Prelude.{◌↔◌, IfOk, None};
ghost use Rattle.formulas.specs.Meaning.{Env, Meaning};
ghost use Rattle.resolve.specs.Scopes.{Bound, IsBelow, OverAll, WhereBound};

use crate::built::{and, every_place, every_set, implies, lies_in, some_place, some_set, sub};
use formulas::formula::{Formula, Group, Place};
use std::alloc::{AllocError, Global};
use trees::tree::{Quantifier, Sort};

/// What the name with a number stands for is the row's. Fails only for want of memory, as each function of this file.
pub fn bound(heap: Global, sort: Sort, number: u32, row: u32) -> Result<Box<Formula>, AllocError>
    ensures { IfOk result (λ f. (e : Env) → Meaning f.value e ↔ Bound sort number row e) }
{
    let row = Box::new(heap, Group::Named(row))?;
    match sort {
        Sort::Place => {
            let place = Box::new(heap, Place::Named(number))?;
            lies_in(heap, place, row)
        }
        Sort::Set => {
            let set = Box::new(heap, Group::Named(number))?;
            sub(heap, set, row)
        }
    }
}

// A formula of what the name with a number stands for, if that is the row's: some thing that is, and of which it holds; or all that are.
fn where_bound(
    heap: Global,
    quantifier: Quantifier,
    sort: Sort,
    number: u32,
    row: u32,
    formula: Box<Formula>,
) -> Result<Box<Formula>, AllocError>
    ensures { IfOk result (λ f. (e : Env) → Meaning f.value e ↔ WhereBound quantifier (Bound sort number row e) (Meaning formula.value e)) }
{
    let bound = bound(heap, sort, number, row)?;
    match quantifier {
        Quantifier::Some => and(heap, bound, formula),
        Quantifier::All => implies(heap, bound, formula),
    }
}

// A formula of some place or set with a number, or of every one.
fn over_all(
    heap: Global,
    quantifier: Quantifier,
    sort: Sort,
    number: u32,
    formula: Box<Formula>,
) -> Result<Box<Formula>, AllocError>
    ensures { IfOk result (λ f. (e : Env) → Meaning f.value e ↔ OverAll quantifier sort number None (λ z. Meaning formula.value z) e) }
{
    match (quantifier, sort) {
        (Quantifier::Some, Sort::Place) => some_place(heap, number, formula),
        (Quantifier::Some, Sort::Set) => some_set(heap, number, formula),
        (Quantifier::All, Sort::Place) => every_place(heap, number, formula),
        (Quantifier::All, Sort::Set) => every_set(heap, number, formula),
    }
}

/// A formula of some place or set with a number, or of every one: of the row's, if the set with a lower number is the row.
pub fn over(
    heap: Global,
    quantifier: Quantifier,
    sort: Sort,
    number: u32,
    row: Option<u32>,
    formula: Box<Formula>,
) -> Result<Box<Formula>, AllocError>
    requires { IsBelow number row }
    ensures { IfOk result (λ f. (e : Env) → Meaning f.value e ↔ OverAll quantifier sort number row (λ z. Meaning formula.value z) e) }
{
    match row {
        None => over_all(heap, quantifier, sort, number, formula),
        Some(row) => {
            let formula = where_bound(heap, quantifier, sort, number, row, formula)?;
            over_all(heap, quantifier, sort, number, formula)
        }
    }
}
