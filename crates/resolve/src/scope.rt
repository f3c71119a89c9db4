// What names stand for where a part of a text is read: each name a term, each predicate itself and what was known where it is declared.
ghost use Rattle.std.specs.Prelude.{◌≡◌, ℕ, List, string_bytes, IfSome, MatchOption, ◌↔◌, is_some};
ghost use Rattle.std.specs.Str.{bytes_eq};
ghost use Rattle.formulas.specs.Meaning.{Env};
ghost use Rattle.resolve.specs.Says.{Value, none, says_of};
ghost use Rattle.resolve.specs.Spaces.{around, bounds};
ghost use Rattle.resolve.specs.Scopes.{meant, context, row_of, ring_of, places_of, Steady, term_sort, signature};
ghost use Rattle.resolve.specs.Kinds.{kind_of};
ghost use Rattle.resolve.specs.Faults.{sort_of, predicate_of, shape_of};

use formulas::formula::{Group, Place};
use trees::tree::{Name, Predicate, Sort};

/// A place or a set, over names that are numbers.
#[derive(Drop)]
pub enum Term {
    Place(Box<Place>),
    Set(Box<Group>),
}

/// What places are that follow one another: a row, which ends with a last one, or a ring, where behind the last one the first comes again.
#[derive(Clone, Copy, Debug, PartialEq, Eq)]
pub enum Shape {
    Row,
    Ring,
}

/// The names and predicates that are known at a part of a text, the innermost first, and where a row or a ring is spoken of, the number of the set that it is.
#[derive(Drop)]
pub enum Scope<'s> {
    Outermost,
    Named(&'s Name, &'s Term, &'s Scope<'s>),
    Row(u32, Shape, &'s Scope<'s>),
    Defined(&'s Predicate, &'s Scope<'s>),
}

/// A predicate, and the scope in which it is declared.
#[derive(Clone, Copy)]
pub struct Known<'s> {
    pub predicate: &'s Predicate,
    pub scope: &'s Scope<'s>,
}

/// What a declared name stands for: a place, a set, or the set of the row's places or the ring's.
#[derive(Clone, Copy, Debug, PartialEq, Eq)]
pub enum Kind {
    Place,
    Set,
    Row,
}

impl Kind {
    /// What a name of that sort stands for.
    pub fn of(sort: Sort) -> Kind
        ensures { result ≡ kind_of sort }
    {
        match sort {
            Sort::Place => Kind::Place,
            Sort::Set => Kind::Set,
        }
    }
}

/// A name that the text declares; its number is its index.
#[derive(Clone, Copy)]
pub struct Free<'a> {
    pub name: &'a Name,
    pub kind: Kind,
}

/// Whether two names are spelled alike.
pub fn is_same(a: &Name, b: &Name) -> bool
    ensures { result ≡ bytes_eq (string_bytes a.now.text) (string_bytes b.now.text) }
{
    a.text.as_str() == b.text.as_str()
}

/// The term that a name stands for; nothing if the name is not known.
pub fn named<'s>(scope: &'s Scope<'s>, name: &Name) -> Option<&'s Term>
    ensures means { MatchOption result ((e : Env) → (context scope.now e).value (string_bytes name.now.text) ≡ none) (λ t. (e : Env) → (context scope.now e).value (string_bytes name.now.text) ≡ meant t.now e) }
    ensures sorts { MatchOption result (sort_of (signature scope.now) (string_bytes name.now.text) ≡ None) (λ t. sort_of (signature scope.now) (string_bytes name.now.text) ≡ Some (term_sort t.now)) }
{
    match scope {
        Scope::Outermost => None,
        Scope::Named(other, term, outer) => {
            if is_same(other, name) {
                return Some(*term);
            }
            named(outer, name)
        }
        Scope::Row(_, _, outer) => named(outer, name),
        Scope::Defined(_, outer) => named(outer, name),
    }
}

/// The number of the set that is the row or the ring, where one is spoken of.
pub fn row_of(scope: &Scope<'_>) -> Option<u32>
    ensures { result ≡ row_of scope.now }
{
    match scope {
        Scope::Outermost => None,
        Scope::Named(_, _, outer) => row_of(outer),
        Scope::Row(number, _, _) => Some(*number),
        Scope::Defined(_, outer) => row_of(outer),
    }
}

/// The number of the set that is the ring, where one is spoken of.
pub fn ring_of(scope: &Scope<'_>) -> Option<u32>
    ensures { result ≡ ring_of scope.now }
{
    match scope {
        Scope::Outermost => None,
        Scope::Named(_, _, outer) => ring_of(outer),
        Scope::Row(number, shape, _) => match shape {
            Shape::Row => None,
            Shape::Ring => Some(*number),
        },
        Scope::Defined(_, outer) => ring_of(outer),
    }
}

/// Whether a row or a ring is spoken of.
pub fn is_in_row(scope: &Scope<'_>) -> bool
    ensures space { (e : Env) → is_some (bounds (context scope.now e).space) ≡ result }
    ensures shape { is_some (shape_of (signature scope.now)) ≡ result }
{
    row_of(scope).is_some()
}

/// The predicate of a name, with the scope in which it is declared; nothing if it is not known.
pub fn defined<'s>(scope: &'s Scope<'s>, name: &Name) -> Option<Known<'s>>
    ensures says { MatchOption result ((e : Env) (vs : List Value) → (context scope.now e).says (string_bytes name.now.text) vs → ⊥) (λ k. (e : Env) (vs : List Value) → (context scope.now e).says (string_bytes name.now.text) vs ↔ says_of k.predicate.now (context k.scope.now e) vs) }
    ensures steady { IfSome result (λ k. (n : ℕ) → Steady n scope.now → Steady n k.scope.now) }
    ensures known { MatchOption result (predicate_of (signature scope.now) (string_bytes name.now.text) ≡ None) (λ k. predicate_of (signature scope.now) (string_bytes name.now.text) ≡ Some (k.predicate.now, signature k.scope.now)) }
{
    match scope {
        Scope::Outermost => None,
        Scope::Named(_, _, outer) => defined(outer, name),
        Scope::Row(_, _, outer) => defined(outer, name),
        Scope::Defined(predicate, outer) => {
            if is_same(&predicate.name, name) {
                return Some(Known {
                    predicate: *predicate,
                    scope: *outer,
                });
            }
            defined(outer, name)
        }
    }
}
