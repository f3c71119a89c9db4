// Expressions as terms.
ghost use Rattle.std.specs.Prelude.{◌≡◌, ◌+◌, ◌⊎◌, map, IfOk, IfErr, List, string_bytes};
ghost use Rattle.formulas.specs.Meaning;
ghost use Rattle.formulas.specs.Meaning.{Env, members};
ghost use Rattle.resolve.specs.Says.{value, number_of, place, set, each_place};
ghost use Rattle.resolve.specs.Scopes.{meant, context, term_sort, signature};
ghost use Rattle.resolve.specs.Faults.{Faulty, sort_of, IsLimit, IsNumber, Among, class_of, class_of_sort, each_of};
ghost use Rattle.trees.specs.Tree.{Expr};
ghost use Rattle.resolve.specs.declared.fault.Class.{Class};

use crate::built::{inter, least, minus, most, only, prev, succ, union};
use crate::fault::{Class, Fault};
use crate::scope::{Scope, Term, named, ring_of};
use crate::steps::check_ends;
use formulas::formula::{Group, Place};
use std::alloc::Global;
use trees::position::Span;
use trees::tree::{Binary, Expr, ExprKind, Name, Unary};

/// How many parts a text may have once its predicates are expanded.
pub const MOST_PARTS: u32 = 4000;
/// How many calls may be open.
pub const MOST_CALLS: u32 = 3000;

/// Makes terms and formulas, as long as parts may still be made.
#[derive(Drop)]
pub struct Resolver {
    pub heap: Global,
    pub parts: u32,
}

/// One call less may be open from here on. At 0 the limit `Deep` is told, at `span`.
pub fn inner(calls: u32, span: Span) -> Result<u32, Fault>
    ensures less { IfOk result (λ left. left + 1 ≡ calls) }
    ensures faults { IfErr result (λ f. IsLimit f) }
{
    if calls == 0 {
        return Err(Fault::Deep(span));
    }
    Ok(calls - 1)
}

// The number that stands behind `+` or `-`.
fn number(expr: &Expr) -> Result<u32, Fault>
    ensures means { IfOk result (λ n. n ≡ number_of expr.now.kind) }
    ensures faults { IfErr result (λ f. (IsNumber expr.now.kind → ⊥) × f ≡ Fault.Number (expr.now.span)) }
{
    match &expr.kind {
        ExprKind::Number(n) => Ok(*n),
        _ => Err(Fault::Number(expr.span)),
    }
}

impl Resolver {
    /// One part less may be made from here on. At 0 the limit `Large` is told, at `span`.
    pub fn spend(&mut self, span: Span) -> Result<(), Fault>
        ensures { IfErr result (λ f. IsLimit f) }
    {
        if self.parts == 0 {
            return Err(Fault::Large(span));
        }
        self.parts -= 1;
        Ok(())
    }

    #[cycle(copying)]
    fn copied_place(&mut self, place: &Place, span: Span) -> Result<Box<Place>, Fault>
        ensures means { IfOk result (λ t. (e : Env) → Meaning.value t.value e ≡ Meaning.value place.now e) }
        ensures faults { IfErr result (λ f. IsLimit f) }
    {
        self.spend(span)?;
        match place {
            Place::Named(x) => Ok(Box::new(self.heap, Place::Named(*x))?),
            Place::First => Ok(Box::new(self.heap, Place::First)?),
            Place::Succ(inner) => {
                let inner = self.copied_place(inner, span)?;
                Ok(succ(self.heap, inner)?)
            }
            Place::Prev(inner) => {
                let inner = self.copied_place(inner, span)?;
                Ok(prev(self.heap, inner)?)
            }
            Place::Least(set) => {
                let set = self.copied_group(set, span)?;
                Ok(least(self.heap, set)?)
            }
            Place::Most(set) => {
                let set = self.copied_group(set, span)?;
                Ok(most(self.heap, set)?)
            }
        }
    }

    #[cycle(copying)]
    fn copied_group(&mut self, group: &Group, span: Span) -> Result<Box<Group>, Fault>
        ensures means { IfOk result (λ t. (e : Env) → members t.value e ≡ members group.now e) }
        ensures faults { IfErr result (λ f. IsLimit f) }
    {
        self.spend(span)?;
        match group {
            Group::Named(x) => Ok(Box::new(self.heap, Group::Named(*x))?),
            Group::Empty => Ok(Box::new(self.heap, Group::Empty)?),
            Group::Only(place) => {
                let place = self.copied_place(place, span)?;
                Ok(only(self.heap, place)?)
            }
            Group::Union(a, b) => {
                let a = self.copied_group(a, span)?;
                let b = self.copied_group(b, span)?;
                Ok(union(self.heap, a, b)?)
            }
            Group::Inter(a, b) => {
                let a = self.copied_group(a, span)?;
                let b = self.copied_group(b, span)?;
                Ok(inter(self.heap, a, b)?)
            }
            Group::Minus(a, b) => {
                let a = self.copied_group(a, span)?;
                let b = self.copied_group(b, span)?;
                Ok(minus(self.heap, a, b)?)
            }
        }
    }

    fn copied(&mut self, term: &Term, span: Span) -> Result<Term, Fault>
        ensures means { IfOk result (λ t. (e : Env) → meant t e ≡ meant term.now e) }
        ensures sorts { IfOk result (λ t. term_sort t ≡ term_sort term.now) }
        ensures faults { IfErr result (λ f. IsLimit f) }
    {
        match term {
            Term::Place(place) => Ok(Term::Place(self.copied_place(place, span)?)),
            Term::Set(group) => Ok(Term::Set(self.copied_group(group, span)?)),
        }
    }

    // What a name stands for.
    fn name(&mut self, name: &Name, scope: &Scope<'_>) -> Result<Term, Fault>
        ensures means { IfOk result (λ t. (e : Env) → (context scope.now e).value (string_bytes name.now.text) ≡ meant t e) }
        ensures sorts { IfOk result (λ t. sort_of (signature scope.now) (string_bytes name.now.text) ≡ Some (term_sort t)) }
        ensures faults { IfErr result (λ f. IsLimit f ⊎ (sort_of (signature scope.now) (string_bytes name.now.text) ≡ None × f ≡ Fault.Name name.now.span)) }
    {
        match named(scope, name) {
            Some(term) => self.copied(term, name.span),
            None => Err(Fault::Name(name.span)),
        }
    }

    /// The place or the set that an expression stands for.
    ///
    /// # Errors
    /// A limit; that it is a formula, where `wanted` stands; or another fault that it has.
    #[cycle(terms)]
    pub fn term(
        &mut self,
        wanted: Class,
        expr: &Expr,
        scope: &Scope<'_>,
        calls: u32,
    ) -> Result<Term, Fault>
        ensures means { IfOk result (λ t. (e : Env) → value expr.now.kind (context scope.now e) ≡ meant t e) }
        ensures sorts { IfOk result (λ t. class_of (signature scope.now) expr.now.kind ≡ Some (class_of_sort (term_sort t))) }
        ensures faults { IfErr result (λ f. IsLimit f ⊎ ((class_of (signature scope.now) expr.now.kind ≡ Some Class.Formula × f ≡ Fault.Class wanted Class.Formula (expr.now.span)) ⊎ ((v : Class) → Faulty (signature scope.now) v expr.now f))) }
    {
        let calls = inner(calls, expr.span)?;
        self.spend(expr.span)?;
        match &expr.kind {
            ExprKind::Named(name) => self.name(name, scope),
            ExprKind::Number(n) => {
                check_ends(scope, expr.span)?;
                let first = Box::new(self.heap, Place::First)?;
                Ok(Term::Place(self.further(first, *n, None, expr.span)?))
            }
            ExprKind::Empty => Ok(Term::Set(Box::new(self.heap, Group::Empty)?)),
            ExprKind::Listed(all) => Ok(Term::Set(self.listed(all, scope, calls)?)),
            ExprKind::Unary(sign, a) => match sign {
                Unary::Min => {
                    check_ends(scope, expr.span)?;
                    let a = self.group(a, scope, calls)?;
                    Ok(Term::Place(least(self.heap, a)?))
                }
                Unary::Max => {
                    check_ends(scope, expr.span)?;
                    let a = self.group(a, scope, calls)?;
                    Ok(Term::Place(most(self.heap, a)?))
                }
                _ => Err(Fault::Class(wanted, Class::Formula, expr.span)),
            },
            ExprKind::Binary(sign, a, b) => match sign {
                Binary::Plus => {
                    let a = self.place(a, scope, calls)?;
                    Ok(Term::Place(self.further(a, number(b)?, ring_of(scope), expr.span)?))
                }
                Binary::Minus => {
                    let a = self.place(a, scope, calls)?;
                    Ok(Term::Place(self.back(a, number(b)?, ring_of(scope), expr.span)?))
                }
                Binary::Union => {
                    let a = self.group(a, scope, calls)?;
                    let b = self.group(b, scope, calls)?;
                    Ok(Term::Set(union(self.heap, a, b)?))
                }
                Binary::Inter => {
                    let a = self.group(a, scope, calls)?;
                    let b = self.group(b, scope, calls)?;
                    Ok(Term::Set(inter(self.heap, a, b)?))
                }
                Binary::Without => {
                    let a = self.group(a, scope, calls)?;
                    let b = self.group(b, scope, calls)?;
                    Ok(Term::Set(minus(self.heap, a, b)?))
                }
                _ => Err(Fault::Class(wanted, Class::Formula, expr.span)),
            },
            ExprKind::True
            | ExprKind::False
            | ExprKind::Bound(..)
            | ExprKind::Call(..)
            | ExprKind::Count(..) => Err(Fault::Class(wanted, Class::Formula, expr.span)),
        }
    }

    /// The place that an expression stands for.
    ///
    /// # Errors
    /// A limit, or a fault that the expression has where a place is wanted.
    #[cycle(terms)]
    pub fn place(&mut self, expr: &Expr, scope: &Scope<'_>, calls: u32) -> Result<Box<Place>, Fault>
        ensures means { IfOk result (λ t. (e : Env) → value expr.now.kind (context scope.now e) ≡ place (Meaning.value t.value e)) }
        ensures faults { IfErr result (λ f. IsLimit f ⊎ Faulty (signature scope.now) Class.Place expr.now f) }
    {
        let calls = inner(calls, expr.span)?;
        match self.term(Class::Place, expr, scope, calls)? {
            Term::Place(place) => Ok(place),
            Term::Set(_) => Err(Fault::Class(Class::Place, Class::Set, expr.span)),
        }
    }

    /// The set that an expression stands for.
    ///
    /// # Errors
    /// A limit, or a fault that the expression has where a set is wanted.
    #[cycle(terms)]
    pub fn group(&mut self, expr: &Expr, scope: &Scope<'_>, calls: u32) -> Result<Box<Group>, Fault>
        ensures means { IfOk result (λ t. (e : Env) → value expr.now.kind (context scope.now e) ≡ set (members t.value e)) }
        ensures faults { IfErr result (λ f. IsLimit f ⊎ Faulty (signature scope.now) Class.Set expr.now f) }
    {
        let calls = inner(calls, expr.span)?;
        match self.term(Class::Set, expr, scope, calls)? {
            Term::Set(group) => Ok(group),
            Term::Place(_) => Err(Fault::Class(Class::Set, Class::Place, expr.span)),
        }
    }

    // The set of the places of a list.
    #[cycle(terms)]
    fn listed(&mut self, all: &[Expr], scope: &Scope<'_>, calls: u32) -> Result<Box<Group>, Fault>
        ensures means { IfOk result (λ t. (e : Env) → each_place (map (λ a. value a.kind (context scope.now e)) all.now) ≡ members t.value e) }
        ensures faults { IfErr result (λ f. IsLimit f ⊎ ((a : Expr) × (Among (Class.Place, a) (each_of Class.Place all.now) × Faulty (signature scope.now) Class.Place a f))) }
    {
        let [first, others @ ..] = all else {
            return Ok(Box::new(self.heap, Group::Empty)?);
        };
        let calls = inner(calls, first.span)?;
        let place = self.place(first, scope, calls)?;
        let single = only(self.heap, place)?;
        if others.is_empty() {
            return Ok(single);
        }
        let set = self.listed(others, scope, calls)?;
        Ok(union(self.heap, single, set)?)
    }
}
