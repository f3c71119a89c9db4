// The claim of a formula, as a tree.
ghost use Rattle.std.specs.Prelude.{◌≡◌, ◌<◌, ◌^◌, true, IfOk};
ghost use Rattle.kinds.specs.declared.atom.Atom.TheVariants.{Related};
ghost use Rattle.claims.specs.Claims.{atom, and1, some as some1};
ghost use Rattle.claims.specs.Trees.{said};
ghost use Rattle.formulas.specs.declared.name.Name.TheVariants.{OfPlace, OfGroup};
ghost use Rattle.formulas.specs.Names.{names, without};
ghost use Rattle.translation.specs.Numbers.{numbered, numbers, fresh};
ghost use Rattle.translation.specs.OnePlace.{claim_of};
ghost use Rattle.translation.specs.Translation;
ghost use Rattle.formula_claims.specs.Relations.{Named};
ghost use Rattle.formula_claims.specs.Scope.{number_of};

use crate::compare::{less, lies_in, lies_within, same};
use crate::count::is_counted;
use crate::one_place::relation_of;
use crate::scope::{Scope, fresh};
use crate::sure::sure;
use crate::tree::{and, signed, signed_related, some_place, some_set};
use claims::tree::Claim;
use formulas::formula::Formula;
use formulas::free::push_others;
use formulas::name::Name;
use kinds::relation::Relation;
use std::alloc::{AllocError, Global};

/// The formula's claim, where names have the sets that the scope says.
pub fn translate(alloc: Global, formula: &Formula, scope: &Scope) -> Result<Box<Claim>, AllocError>
    ensures { IfOk result (λ c. said c.value ≡ Translation.claim formula.now (number_of scope.now)) }
{
    translate_as(alloc, formula, true, scope)
}

// The formula's claim, or where it is not to hold that of its opposite.
#[cycle(formulas)]
fn translate_as(
    alloc: Global,
    formula: &Formula,
    holds: bool,
    scope: &Scope,
) -> Result<Box<Claim>, AllocError>
    ensures { IfOk result (λ c. said c.value ≡ Translation.claim_as formula.now holds (number_of scope.now)) }
{
    match formula {
        Formula::True => signed_related(alloc, holds, Relation::Within(0, 0)),
        Formula::Same(s, t) => same(alloc, s, t, holds, scope),
        Formula::Less(s, t) => less(alloc, s, t, holds, scope),
        Formula::In(t, s) => lies_in(alloc, t, s, holds, scope),
        Formula::Sub(s, t) => lies_within(alloc, s, t, holds, scope),
        Formula::Count(s, remainder) => is_counted(alloc, s, *remainder, holds, scope),
        Formula::Not(a) => translate_as(alloc, a, !holds, scope),
        Formula::And(a, b) => {
            let c = translate_as(alloc, a, true, scope)?;
            beside(alloc, b, true, c, holds, scope)
        }
        Formula::Or(a, b) => {
            let c = translate_as(alloc, a, false, scope)?;
            beside(alloc, b, false, c, !holds, scope)
        }
        Formula::Implies(a, b) => {
            let c = translate_as(alloc, a, true, scope)?;
            beside(alloc, b, false, c, !holds, scope)
        }
        Formula::Some1(x, a) => match relation_of(*x, a) {
            Some(named) => signed_related(alloc, holds, numbered_relation(named, scope)),
            None => some_named(alloc, *x, a, true, holds, scope),
        },
        Formula::All1(x, a) => some_named(alloc, *x, a, false, !holds, scope),
        Formula::Some2(x, a) => some_group(alloc, *x, a, true, holds, scope),
        Formula::All2(x, a) => some_group(alloc, *x, a, false, !holds, scope),
    }
}

// The claim c, and the formula's, or where it is not to hold its opposite's; or the opposite of both
// where `both` is false.
#[cycle(formulas)]
fn beside(
    alloc: Global,
    formula: &Formula,
    holds: bool,
    c: Box<Claim>,
    both: bool,
    scope: &Scope,
) -> Result<Box<Claim>, AllocError>
    ensures { IfOk result (λ r. said r.value ≡ Translation.signed both (and1 (said c.value) (Translation.claim_as formula.now holds (number_of scope.now)))) }
{
    let d = translate_as(alloc, formula, holds, scope)?;
    let together = and(alloc, c, d)?;
    signed(alloc, both, together)
}

// The number of the set that has the name n.
fn set_number(n: usize, scope: &Scope) -> usize
    requires { n < 2 ^ 32 }
    ensures { result ≡ number_of scope.now (OfGroup n) }
{
    scope.number(Name::OfGroup(n as u32))
}

// What a relation says of sets by their names, said of their numbers.
fn numbered_relation(named: Relation, scope: &Scope) -> Relation
    requires { Named named }
    ensures { atom (Related result) ≡ claim_of (number_of scope.now) named }
{
    match named {
        Relation::Within(y, z) => Relation::Within(set_number(y, scope), set_number(z, scope)),
        Relation::Single(y) => Relation::Single(set_number(y, scope)),
        Relation::Next(y, z) => Relation::Next(set_number(y, scope), set_number(z, scope)),
        Relation::Before(y, z) => Relation::Before(set_number(y, scope), set_number(z, scope)),
    }
}

// There is a place x of which the formula holds, or does not hold; or where `some` is false there is
// none.
#[cycle(formulas)]
fn some_named(
    alloc: Global,
    x: u32,
    formula: &Formula,
    holds: bool,
    some: bool,
    scope: &Scope,
) -> Result<Box<Claim>, AllocError>
    ensures { IfOk result (λ c. (let m = fresh (numbers (number_of scope.now) (without (OfPlace x) (names formula.now))) in said c.value ≡ Translation.signed some (Translation.some_place (Translation.sure formula.now holds x) m (Translation.claim_as formula.now holds (numbered (number_of scope.now) (OfPlace x) m))))) }
{
    let m = beside_others(alloc, Name::OfPlace(x), formula, scope)?;
    let inner = Scope::Bound(Name::OfPlace(x), m, &*scope);
    let c = translate_as(alloc, formula, holds, &inner)?;
    let place = some_place(alloc, sure(formula, holds, x), m, c)?;
    signed(alloc, some, place)
}

// There is a set x of which the formula holds, or does not hold; or where `some` is false there is
// none.
#[cycle(formulas)]
fn some_group(
    alloc: Global,
    x: u32,
    formula: &Formula,
    holds: bool,
    some: bool,
    scope: &Scope,
) -> Result<Box<Claim>, AllocError>
    ensures { IfOk result (λ c. (let m = fresh (numbers (number_of scope.now) (without (OfGroup x) (names formula.now))) in said c.value ≡ Translation.signed some (some1 m (Translation.claim_as formula.now holds (numbered (number_of scope.now) (OfGroup x) m))))) }
{
    let m = beside_others(alloc, Name::OfGroup(x), formula, scope)?;
    let inner = Scope::Bound(Name::OfGroup(x), m, &*scope);
    let c = translate_as(alloc, formula, holds, &inner)?;
    let set = some_set(alloc, m, c)?;
    signed(alloc, some, set)
}

// The lowest number that no name of the formula has but the one that a quantifier binds.
fn beside_others(
    alloc: Global,
    bound: Name,
    formula: &Formula,
    scope: &Scope,
) -> Result<usize, AllocError>
    ensures { IfOk result (λ m. m ≡ fresh (numbers (number_of scope.now) (without bound (names formula.now)))) }
{
    let mut others = Vec::new(alloc);
    push_others(alloc, &mut others, bound, formula)?;
    Ok(fresh(&[], &others, scope))
}
