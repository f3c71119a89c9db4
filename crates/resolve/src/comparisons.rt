// What is said of terms, as a formula: places and sets compared.
ghost use Rattle.std.specs.Prelude.{◌≡◌, ℕ, ◌<◌, true, ◌⊎◌, ◌↔◌, IfOk, IfErr};
ghost use Rattle.claims.specs.Claims.{has};
ghost use Rattle.formulas.specs.Meaning.{Env, Meaning};
ghost use Rattle.resolve.specs.Says.{value, place_of, set_of, Same, IsSet, holds};
ghost use Rattle.resolve.specs.Scopes.{context, signature};
ghost use Rattle.resolve.specs.Faults.{Faulty, IsLimit, Connects, class_of, side};
ghost use Rattle.resolve.specs.declared.fault.Class.{Class};

use crate::built::{and, less, lies_in, negation, same, sub};
use crate::fault::{Class, Fault};
use crate::scope::{Scope, Term};
use crate::steps::check_ends;
use crate::terms::Resolver;
use formulas::formula::{Formula, Group};
use trees::tree::{Binary, Expr, ExprKind, Unary};

impl Resolver {
    // A set within another.
    fn within(
        &mut self,
        a: &Expr,
        b: &Expr,
        scope: &Scope<'_>,
        calls: u32,
    ) -> Result<Box<Formula>, Fault>
        ensures says { IfOk result (λ f. (e : Env) → let s = context scope.now e in Meaning f.value e ↔ ((i : ℕ) → has (set_of (value a.now.kind s)) i ≡ true → has (set_of (value b.now.kind s)) i ≡ true)) }
        ensures sets { IfOk result (λ f. (e : Env) → IsSet (value a.now.kind (context scope.now e)) × IsSet (value b.now.kind (context scope.now e))) }
        ensures faults { IfErr result (λ f. IsLimit f ⊎ (Faulty (signature scope.now) Class.Set a.now f ⊎ Faulty (signature scope.now) Class.Set b.now f)) }
    {
        let a = self.group(a, scope, calls)?;
        let b = self.group(b, scope, calls)?;
        Ok(sub(self.heap, a, b)?)
    }

    // A place before another.
    fn before(
        &mut self,
        a: &Expr,
        b: &Expr,
        scope: &Scope<'_>,
        calls: u32,
    ) -> Result<Box<Formula>, Fault>
        ensures says { IfOk result (λ f. (e : Env) → let s = context scope.now e in Meaning f.value e ↔ (place_of (value a.now.kind s) < place_of (value b.now.kind s))) }
        ensures faults { IfErr result (λ f. IsLimit f ⊎ (Faulty (signature scope.now) Class.Place a.now f ⊎ Faulty (signature scope.now) Class.Place b.now f)) }
    {
        let a = self.place(a, scope, calls)?;
        let b = self.place(b, scope, calls)?;
        Ok(less(self.heap, a, b)?)
    }

    // A place in a set.
    fn belongs(
        &mut self,
        a: &Expr,
        b: &Expr,
        scope: &Scope<'_>,
        calls: u32,
    ) -> Result<Box<Formula>, Fault>
        ensures says { IfOk result (λ f. (e : Env) → let s = context scope.now e in Meaning f.value e ↔ (has (set_of (value b.now.kind s)) (place_of (value a.now.kind s)) ≡ true)) }
        ensures faults { IfErr result (λ f. IsLimit f ⊎ (Faulty (signature scope.now) Class.Place a.now f ⊎ Faulty (signature scope.now) Class.Set b.now f)) }
    {
        let a = self.place(a, scope, calls)?;
        let b = self.group(b, scope, calls)?;
        Ok(lies_in(self.heap, a, b)?)
    }

    // Two places that are the same, or two sets.
    fn equal(
        &mut self,
        a: &Expr,
        b: &Expr,
        scope: &Scope<'_>,
        calls: u32,
    ) -> Result<Box<Formula>, Fault>
        ensures says { IfOk result (λ f. (e : Env) → let s = context scope.now e in Meaning f.value e ↔ Same (value a.now.kind s) (value b.now.kind s)) }
        ensures faults { IfErr result (λ f. let sides = side (class_of (signature scope.now) a.now.kind) in IsLimit f ⊎ (Faulty (signature scope.now) sides a.now f ⊎ Faulty (signature scope.now) sides b.now f)) }
    {
        match self.term(Class::Place, a, scope, calls)? {
            Term::Place(first) => {
                let second = self.place(b, scope, calls)?;
                Ok(same(self.heap, first, second)?)
            }
            Term::Set(_) => {
                let first = self.within(a, b, scope, calls)?;
                let second = self.within(b, a, scope, calls)?;
                Ok(and(self.heap, first, second)?)
            }
        }
    }

    // A set without places.
    fn emptied(&mut self, a: &Expr, scope: &Scope<'_>, calls: u32) -> Result<Box<Formula>, Fault>
        ensures says { IfOk result (λ f. (e : Env) → Meaning f.value e ↔ ((i : ℕ) → has (set_of (value a.now.kind (context scope.now e))) i ≡ true → ⊥)) }
        ensures faults { IfErr result (λ f. IsLimit f ⊎ Faulty (signature scope.now) Class.Set a.now f) }
    {
        let set = self.group(a, scope, calls)?;
        let empty = Box::new(self.heap, Group::Empty)?;
        Ok(sub(self.heap, set, empty)?)
    }

    // What is at fault where a formula is wanted and a term stands: the term, or else that it is one.
    fn no_formula(&mut self, expr: &Expr, scope: &Scope<'_>, calls: u32) -> Fault
        ensures { IsLimit result ⊎ ((class_of (signature scope.now) expr.now.kind ≡ Some Class.Formula → ⊥) → Faulty (signature scope.now) Class.Formula expr.now result) }
    {
        match self.term(Class::Formula, expr, scope, calls) {
            Ok(Term::Place(_)) => Fault::Class(Class::Formula, Class::Place, expr.span),
            Ok(Term::Set(_)) => Fault::Class(Class::Formula, Class::Set, expr.span),
            Err(fault) => fault,
        }
    }

    /// What an expression says of terms. Of any other it tells what is wrong with it as such.
    ///
    /// # Errors
    /// A limit; or, unless the expression is made of formulas, a fault that it has where a formula is wanted.
    pub fn compared(
        &mut self,
        expr: &Expr,
        scope: &Scope<'_>,
        calls: u32,
    ) -> Result<Box<Formula>, Fault>
        ensures says { IfOk result (λ f. (e : Env) → Meaning f.value e ↔ holds expr.now.kind (context scope.now e)) }
        ensures faults { IfErr result (λ f. IsLimit f ⊎ ((Connects expr.now.kind → ⊥) → Faulty (signature scope.now) Class.Formula expr.now f)) }
    {
        match &expr.kind {
            ExprKind::Unary(sign, a) => match sign {
                Unary::IsEmpty => self.emptied(a, scope, calls),
                _ => Err(self.no_formula(expr, scope, calls)),
            },
            ExprKind::Binary(sign, a, b) => match sign {
                Binary::In => self.belongs(a, b, scope, calls),
                Binary::NotIn => {
                    let formula = self.belongs(a, b, scope, calls)?;
                    Ok(negation(self.heap, formula)?)
                }
                Binary::Sub => self.within(a, b, scope, calls),
                Binary::Equal => self.equal(a, b, scope, calls),
                Binary::Differs => {
                    let formula = self.equal(a, b, scope, calls)?;
                    Ok(negation(self.heap, formula)?)
                }
                Binary::Less => {
                    check_ends(scope, expr.span)?;
                    self.before(a, b, scope, calls)
                }
                Binary::Greater => {
                    check_ends(scope, expr.span)?;
                    self.before(b, a, scope, calls)
                }
                Binary::AtMost => {
                    check_ends(scope, expr.span)?;
                    let formula = self.before(b, a, scope, calls)?;
                    Ok(negation(self.heap, formula)?)
                }
                Binary::AtLeast => {
                    check_ends(scope, expr.span)?;
                    let formula = self.before(a, b, scope, calls)?;
                    Ok(negation(self.heap, formula)?)
                }
                _ => Err(self.no_formula(expr, scope, calls)),
            },
            ExprKind::Count(set, modulus, rest) => self.counted(set, modulus, rest, scope, calls),
            _ => Err(self.no_formula(expr, scope, calls)),
        }
    }
}
