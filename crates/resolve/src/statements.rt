// Expressions as formulas: connectives, quantifiers, and predicates expanded. A bound name takes the number of names that are bound or declared around it, so that no argument of a predicate is captured.
ghost use Rattle.std.specs.Prelude.{◌≡◌, ◌+◌, map, length, ◌⊎◌, ◌↔◌, IfOk, IfErr};
ghost use Rattle.formulas.specs.Meaning.{Env, Meaning};
ghost use Rattle.resolve.specs.Says.{value, holds, quantified, bind_all, given};
ghost use Rattle.resolve.specs.Scopes.{meant, context, term_sort, signature, Settled, Steady, OverAll};
ghost use Rattle.resolve.specs.Faults.{Faulty, IsLimit, Among, class_of_sort, with_names, with_parameters, as_parameters};
ghost use Rattle.trees.specs.Tree.{Expr};
ghost use Rattle.resolve.specs.declared.fault.Class.{Class};

use crate::bounds::over;
use crate::built::{and, implies, negation, or};
use crate::fault::Fault;
use crate::scope::{Scope, Term, defined, row_of};
use crate::terms::{Resolver, inner};
use formulas::formula::{Formula, Group, Place};
use std::alloc::{AllocError, Global};
use trees::tree::{Binary, Expr, ExprKind, Name, Parameter, Quantifier, Sort, Unary};

/// The term of a name with a number. Fails only for want of memory.
pub fn numbered(heap: Global, sort: Sort, number: u32) -> Result<Term, AllocError>
    ensures means { IfOk result (λ t. (e : Env) → meant t e ≡ given sort number e) }
    ensures settled { IfOk result (λ t. Settled (number + 1) t) }
    ensures sorts { IfOk result (λ t. term_sort t ≡ sort) }
{
    match sort {
        Sort::Place => Ok(Term::Place(Box::new(heap, Place::Named(number))?)),
        Sort::Set => Ok(Term::Set(Box::new(heap, Group::Named(number))?)),
    }
}

impl Resolver {
    /// What an expression says, as a formula over numbers; names that are bound take the numbers from `level` on.
    ///
    /// # Errors
    /// A limit, or a fault that the expression has where a formula is wanted.
    #[cycle(statements)]
    pub fn formula<'s>(
        &mut self,
        expr: &'s Expr,
        scope: &'s Scope<'s>,
        level: u32,
        calls: u32,
    ) -> Result<Box<Formula>, Fault>
        requires { Steady level scope.now }
        ensures says { IfOk result (λ f. (e : Env) → Meaning f.value e ↔ holds expr.now.kind (context scope.now e)) }
        ensures faults { IfErr result (λ f. IsLimit f ⊎ Faulty (signature scope.now) Class.Formula expr.now f) }
    {
        let calls = inner(calls, expr.span)?;
        self.spend(expr.span)?;
        match &expr.kind {
            ExprKind::True => Ok(Box::new(self.heap, Formula::True)?),
            ExprKind::False => {
                let holds = Box::new(self.heap, Formula::True)?;
                Ok(negation(self.heap, holds)?)
            }
            ExprKind::Unary(sign, a) => match sign {
                Unary::Not => {
                    let a = self.formula(a, scope, level, calls)?;
                    Ok(negation(self.heap, a)?)
                }
                _ => self.compared(expr, scope, calls),
            },
            ExprKind::Binary(sign, a, b) => match sign {
                Binary::And => {
                    let a = self.formula(a, scope, level, calls)?;
                    let b = self.formula(b, scope, level, calls)?;
                    Ok(and(self.heap, a, b)?)
                }
                Binary::Or => {
                    let a = self.formula(a, scope, level, calls)?;
                    let b = self.formula(b, scope, level, calls)?;
                    Ok(or(self.heap, a, b)?)
                }
                Binary::Implies => self.implication(a, b, scope, level, calls),
                Binary::Iff => {
                    let first = self.implication(a, b, scope, level, calls)?;
                    let second = self.implication(b, a, scope, level, calls)?;
                    Ok(and(self.heap, first, second)?)
                }
                _ => self.compared(expr, scope, calls),
            },
            ExprKind::Bound(quantifier, sort, names, body) => {
                self.bound(*quantifier, *sort, names, body, scope, level, calls)
            }
            ExprKind::Call(name, arguments) => {
                let Some(known) = defined(scope, name) else {
                    return Err(Fault::Predicate(name.span));
                };
                let wanted = known.predicate.parameters.len();
                if wanted != arguments.len() {
                    return Err(Fault::Arguments(wanted, arguments.len(), expr.span));
                }
                self.expanded(
                    &known.predicate.parameters,
                    arguments,
                    &known.predicate.body,
                    known.scope,
                    scope,
                    level,
                    calls,
                )
            }
            _ => self.compared(expr, scope, calls),
        }
    }

    #[cycle(statements)]
    fn implication<'s>(
        &mut self,
        a: &'s Expr,
        b: &'s Expr,
        scope: &'s Scope<'s>,
        level: u32,
        calls: u32,
    ) -> Result<Box<Formula>, Fault>
        requires { Steady level scope.now }
        ensures says { IfOk result (λ f. (e : Env) → Meaning f.value e ↔ (holds a.now.kind (context scope.now e) → holds b.now.kind (context scope.now e))) }
        ensures faults { IfErr result (λ f. IsLimit f ⊎ (Faulty (signature scope.now) Class.Formula a.now f ⊎ Faulty (signature scope.now) Class.Formula b.now f)) }
    {
        let calls = inner(calls, a.span)?;
        let a = self.formula(a, scope, level, calls)?;
        let b = self.formula(b, scope, level, calls)?;
        Ok(implies(self.heap, a, b)?)
    }

    // A quantifier over the names of a list, one within the other.
    #[cycle(statements)]
    fn bound<'s>(
        &mut self,
        quantifier: Quantifier,
        sort: Sort,
        names: &'s [Name],
        body: &'s Expr,
        scope: &'s Scope<'s>,
        level: u32,
        calls: u32,
    ) -> Result<Box<Formula>, Fault>
        requires { Steady level scope.now }
        ensures says { IfOk result (λ f. (e : Env) → Meaning f.value e ↔ quantified quantifier sort names.now (λ z. holds body.now.kind z) (context scope.now e)) }
        ensures faults { IfErr result (λ f. IsLimit f ⊎ Faulty (with_names sort names.now (signature scope.now)) Class.Formula body.now f) }
    {
        let calls = inner(calls, body.span)?;
        let [first, others @ ..] = names else {
            return self.formula(body, scope, level, calls);
        };
        self.spend(first.span)?;
        let Some(next) = level.checked_add(1) else {
            return Err(Fault::Deep(first.span));
        };
        let term = numbered(self.heap, sort, level)?;
        let inside = Scope::Named(first, &term, &*scope);
        let formula = self.bound(quantifier, sort, others, &*body, &inside, next, calls)?;
        Ok(over(self.heap, quantifier, sort, level, row_of(scope), formula)?)
    }

    // A predicate's body, in the scope of its declaration, its parameters standing for the arguments, which are read in the scope of the call.
    #[cycle(statements)]
    fn expanded<'s>(
        &mut self,
        parameters: &'s [Parameter],
        arguments: &'s [Expr],
        body: &'s Expr,
        scope: &'s Scope<'s>,
        around: &'s Scope<'s>,
        level: u32,
        calls: u32,
    ) -> Result<Box<Formula>, Fault>
        requires inside { Steady level scope.now }
        requires outside { Steady level around.now }
        ensures says { IfOk result (λ f. (e : Env) → Meaning f.value e ↔ holds body.now.kind (bind_all parameters.now (map (λ a. value a.kind (context around.now e)) arguments.now) (context scope.now e))) }
        ensures faults { IfErr result (λ f. IsLimit f ⊎ (length parameters.now ≡ length arguments.now → ((c : Class) × ((a : Expr) × (Among (c, a) (as_parameters parameters.now arguments.now) × Faulty (signature around.now) c a f))) ⊎ Faulty (with_parameters parameters.now (signature scope.now)) Class.Formula body.now f)) }
    {
        let calls = inner(calls, body.span)?;
        let [parameter, others @ ..] = parameters else {
            return self.formula(body, scope, level, calls);
        };
        let [argument, behind @ ..] = arguments else {
            return self.formula(body, scope, level, calls);
        };
        let term = self.argument(parameter.sort, argument, around, calls)?;
        let inside = Scope::Named(&parameter.name, &term, &*scope);
        self.expanded(others, behind, &*body, &inside, &*around, level, calls)
    }

    // A term of a sort. It makes no part of the formula where it stands: each use of the parameter does.
    fn argument(
        &mut self,
        sort: Sort,
        term: &Expr,
        scope: &Scope<'_>,
        calls: u32,
    ) -> Result<Term, Fault>
        ensures says { IfOk result (λ t. (e : Env) → value term.now.kind (context scope.now e) ≡ meant t e) }
        ensures sorts { IfOk result (λ t. term_sort t ≡ sort) }
        ensures faults { IfErr result (λ f. IsLimit f ⊎ Faulty (signature scope.now) (class_of_sort sort) term.now f) }
    {
        let left = self.parts;
        let term = match sort {
            Sort::Place => Term::Place(self.place(term, scope, calls)?),
            Sort::Set => Term::Set(self.group(term, scope, calls)?),
        };
        self.parts = left;
        Ok(term)
    }
}
