// The claim that a set has as many places as a remainder says.
ghost use Rattle.std.specs.Prelude.{◌≡◌, ◌∷◌, IfOk};
ghost use Rattle.claims.specs.Trees.{said};
ghost use Rattle.formulas.specs.Names.{names_group};
ghost use Rattle.translation.specs.Numbers.{numbers, fresh};
ghost use Rattle.translation.specs.Translation;
ghost use Rattle.formula_claims.specs.Scope.{number_of};

use crate::compare::set_within;
use crate::scope::{Scope, fresh};
use crate::sure::is_sure_in;
use crate::terms::is_in;
use crate::tree::{and, and_not, counted, lies, no_place, signed, some_set};
use claims::tree::Claim;
use formulas::formula::{Formula, Group};
use formulas::free::push_group;
use formulas::name::Name;
use kinds::multiple::{Multiple, Remainder};
use std::alloc::{AllocError, Global};

// The set has as many places as the remainder says, or where that is not to hold it has not.
pub fn is_counted(
    alloc: Global,
    s: &Group,
    remainder: Remainder,
    holds: bool,
    scope: &Scope,
) -> Result<Box<Claim>, AllocError>
    ensures { IfOk result (λ c. said c.value ≡ Translation.claim_as (Formula.Count s.now remainder) holds (number_of scope.now)) }
{
    if let Group::Named(x) = s {
        let set = scope.number(Name::OfGroup(*x));
        let claim = counted(alloc, Multiple { remainder, set })?;
        return signed(alloc, holds, claim);
    }
    let mut names = Vec::new(alloc);
    push_group(&mut names, s)?;
    let m = fresh(&[], &names, scope);
    let n = fresh(&[m], &names, scope);
    let same = is_set(alloc, s, scope, m, n)?;
    let as_many = counted(alloc, Multiple { remainder, set: m })?;
    let some = some_set(alloc, m, and(alloc, same, as_many)?)?;
    signed(alloc, holds, some)
}

// Set m has the places of s, tried as set n, and no others.
fn is_set(
    alloc: Global,
    s: &Group,
    scope: &Scope,
    m: usize,
    n: usize,
) -> Result<Box<Claim>, AllocError>
    ensures { IfOk result (λ c. said c.value ≡ Translation.is_set (number_of scope.now) s.now m n) }
{
    let no_others = set_within(alloc, m, s, scope, n)?;
    let all = within_set(alloc, s, m, scope, n)?;
    and(alloc, no_others, all)
}

// Every place of s, tried as set m, is one of set n.
fn within_set(
    alloc: Global,
    s: &Group,
    n: usize,
    scope: &Scope,
    m: usize,
) -> Result<Box<Claim>, AllocError>
    ensures { IfOk result (λ c. said c.value ≡ Translation.within_set (number_of scope.now) s.now n m) }
{
    let in_s = is_in(alloc, s, scope, m)?;
    let in_n = lies(alloc, m, n)?;
    let outside = and_not(alloc, in_s, in_n)?;
    no_place(alloc, is_sure_in(s), m, outside)
}
