// What a text asks: its declared names, what is assumed of them, and what is claimed.
ghost use Rattle.std.specs.Prelude.{◌≡◌, ℕ, suc, ◌+◌, ◌++◌, ◌∷◌, ◌↔◌, ◌⊎◌, map, false, IfOk, IfErr, OnOk};
ghost use Rattle.formulas.specs.Meaning.{Env};
ghost use Rattle.formulas.specs.Sets.{highest};
ghost use Rattle.resolve.specs.Kinds.{kind_of};
ghost use Rattle.resolve.specs.Says.{declare, in_row, ending, count, place};
ghost use Rattle.resolve.specs.Scopes.{context, meant, signature, term_sort, Steady};
ghost use Rattle.resolve.specs.declared.scope.Kind.TheVariants.{Row as OfRow};
ghost use Rattle.trees.specs.declared.tree.Sort.TheVariants.{Place as OfPlace};
ghost use Rattle.resolve.specs.Faults.{Faulty, FaultyText, LateRing, RowAgain, EndsAgain, with_row, with_ends, NamedAgain, IsLimit, outermost, with_names, with_parameters};
ghost use Rattle.resolve.specs.declared.fault.Class.TheVariants.{Formula as OfFormula};
ghost use Rattle.resolve.specs.Asks.{Asks, AsksMore, Written, declared};

use crate::built::most;
use crate::fault::Fault;
use crate::late::late_ring;
use crate::scope::{Free, Kind, Scope, Shape, Term, defined, is_in_row, named};
use crate::statements::numbered;
use crate::terms::{MOST_CALLS, MOST_PARTS, Resolver, inner};
use formulas::formula::{Formula, Group};
use std::alloc::{AllocError, Global};
use trees::position::Span;
use trees::tree::{Ends, Expr, Item, Name, Parameter, Row, Sort};

/// A formula of the text, as it stands there and as a formula over numbers, and whether a row or a ring is spoken of there.
#[derive(Drop)]
pub struct Stated<'a> {
    pub expr: &'a Expr,
    pub formula: Box<Formula>,
    pub in_row: bool,
}

/// The names that a text declares, what it assumes of them and what it claims.
#[derive(Drop)]
pub struct Asked<'a> {
    pub free: Vec<Free<'a>>,
    pub assumed: Vec<Stated<'a>>,
    pub claimed: Vec<Stated<'a>>,
}

// Where an item stands.
fn span_of(item: &Item) -> Span {
    match item {
        Item::Free(_, names) => match names.first() {
            Some(name) => name.span,
            None => Span { start: 0, end: 0 },
        },
        Item::Row(row) => row.places.span,
        Item::Predicate(predicate) => predicate.name.span,
        Item::Assert(expr) | Item::Formula(expr) => expr.span,
    }
}

// The last place of the row, the set with that number.
fn last_of(heap: Global, row: u32) -> Result<Term, AllocError>
    ensures means { IfOk result (λ t. (e : Env) → meant t e ≡ place (highest (e.groups row))) }
    ensures sorts { IfOk result (λ t. term_sort t ≡ OfPlace) }
{
    let places = Box::new(heap, Group::Named(row))?;
    Ok(Term::Place(most(heap, places)?))
}

impl Resolver {
    // A predicate's body says something of its parameters.
    #[cycle(checking)]
    fn check<'s>(
        &mut self,
        parameters: &'s [Parameter],
        body: &'s Expr,
        scope: &'s Scope<'s>,
        level: u32,
        calls: u32,
    ) -> Result<(), Fault>
        requires { Steady level scope.now }
        ensures { IfErr result (λ f. IsLimit f ⊎ Faulty (with_parameters parameters.now (signature scope.now)) OfFormula body.now f) }
    {
        let [parameter, others @ ..] = parameters else {
            let _ = self.formula(body, scope, level, calls)?;
            return Ok(());
        };
        let Some(next) = level.checked_add(1) else {
            return Err(Fault::Deep(parameter.name.span));
        };
        let term = numbered(self.heap, parameter.sort, level)?;
        let inside = Scope::Named(&parameter.name, &term, &*scope);
        self.check(others, &*body, &inside, next, calls)
    }

    // What the items ask, in the scope of those before them.
    #[cycle(asking)]
    fn items<'a, 's>(
        &mut self,
        asked: &mut Asked<'a>,
        items: &'a [Item],
        scope: &'s Scope<'s>,
        level: u32,
        calls: u32,
    ) -> Result<(), Fault>
    where
        'a: 's,
        requires { Steady level scope.now }
        ensures says { OnOk result (AsksMore asked.old asked.new (declared items.now) (λ l m. Written items.now level (λ e. context scope.now e) l m)) }
        ensures faults { IfErr result (λ f. IsLimit f ⊎ FaultyText items.now (signature scope.now) f) }
    {
        let [first, rest @ ..] = items else {
            return Ok(());
        };
        let calls = inner(calls, span_of(first))?;
        match first {
            Item::Free(sort, names) => {
                self.names(
                    asked,
                    *sort,
                    names,
                    rest,
                    span_of(first),
                    scope,
                    level,
                    calls,
                )
            }
            Item::Row(row) => self.row(asked, row, rest, scope, level, calls),
            Item::Predicate(predicate) => {
                if defined(scope, &predicate.name).is_some() {
                    return Err(Fault::Again(predicate.name.span));
                }
                let left = self.parts;
                self.check(&predicate.parameters, &predicate.body, scope, level, calls)?;
                self.parts = left;
                let inside = Scope::Defined(predicate, &*scope);
                self.items(asked, rest, &inside, level, calls)
            }
            Item::Assert(expr) => {
                let formula = self.formula(expr, scope, level, calls)?;
                asked.assumed.push(Stated {
                    expr,
                    formula,
                    in_row: is_in_row(scope),
                })?;
                self.items(asked, rest, scope, level, calls)
            }
            Item::Formula(expr) => {
                let formula = self.formula(expr, scope, level, calls)?;
                asked.claimed.push(Stated {
                    expr,
                    formula,
                    in_row: is_in_row(scope),
                })?;
                self.items(asked, rest, scope, level, calls)
            }
        }
    }

    // The row or the ring, whose places are the set with the next number, and what the items behind it ask.
    #[cycle(asking)]
    fn row<'a, 's>(
        &mut self,
        asked: &mut Asked<'a>,
        row: &'a Row,
        rest: &'a [Item],
        scope: &'s Scope<'s>,
        level: u32,
        calls: u32,
    ) -> Result<(), Fault>
    where
        'a: 's,
        requires { Steady level scope.now }
        ensures says { OnOk result (AsksMore asked.old asked.new ((row.now.places, OfRow) ∷ declared rest.now) (λ l m. Written rest.now (suc level) (λ e. in_row row.now level e (context scope.now e)) l m)) }
        ensures faults { IfErr result (λ f. IsLimit f ⊎ (RowAgain row.now (signature scope.now) f ⊎ FaultyText rest.now (with_row row.now (signature scope.now)) f)) }
    {
        let calls = inner(calls, row.places.span)?;
        if is_in_row(scope) || named(scope, &row.places).is_some() {
            return Err(Fault::Again(row.places.span));
        }
        asked.free.push(Free {
            name: &row.places,
            kind: Kind::Row,
        })?;
        let places = numbered(self.heap, Sort::Set, level)?;
        let with_places = Scope::Named(&row.places, &places, &*scope);
        self.ends(asked, row, rest, &with_places, level, calls)
    }

    // How the places end that are the set with this number, and what the items behind that ask.
    #[cycle(asking)]
    fn ends<'a, 's>(
        &mut self,
        asked: &mut Asked<'a>,
        row: &'a Row,
        rest: &'a [Item],
        scope: &'s Scope<'s>,
        level: u32,
        calls: u32,
    ) -> Result<(), Fault>
    where
        'a: 's,
        requires { Steady (level + 1) scope.now }
        ensures says { OnOk result (AsksMore asked.old asked.new (declared rest.now) (λ l m. Written rest.now (suc level) (λ e. ending row.now.ends (e.groups level) (context scope.now e)) l m)) }
        ensures faults { IfErr result (λ f. IsLimit f ⊎ (EndsAgain row.now.ends (signature scope.now) f ⊎ FaultyText rest.now (with_ends row.now.ends (signature scope.now)) f)) }
    {
        let calls = inner(calls, row.places.span)?;
        let Some(next) = level.checked_add(1) else {
            return Err(Fault::Deep(row.places.span));
        };
        match &row.ends {
            Ends::Last(name) => {
                if named(scope, name).is_some() {
                    return Err(Fault::Again(name.span));
                }
                let last = last_of(self.heap, level)?;
                let with_last = Scope::Named(name, &last, &*scope);
                let inside = Scope::Row(level, Shape::Row, &with_last);
                self.items(asked, rest, &inside, next, calls)
            }
            Ends::Round => {
                let inside = Scope::Row(level, Shape::Ring, &*scope);
                self.items(asked, rest, &inside, next, calls)
            }
        }
    }

    // Declared names, each with the next number, and what the items behind them ask.
    #[cycle(asking)]
    fn names<'a, 's>(
        &mut self,
        asked: &mut Asked<'a>,
        sort: Sort,
        names: &'a [Name],
        rest: &'a [Item],
        span: Span,
        scope: &'s Scope<'s>,
        level: u32,
        calls: u32,
    ) -> Result<(), Fault>
    where
        'a: 's,
        requires { Steady level scope.now }
        ensures says { OnOk result (AsksMore asked.old asked.new (map (λ x. (x, kind_of sort)) names.now ++ declared rest.now) (λ l m. Written rest.now (count level names.now) (λ e. declare sort names.now level e (context scope.now e)) l m)) }
        ensures faults { IfErr result (λ f. IsLimit f ⊎ (NamedAgain sort names.now (signature scope.now) f ⊎ FaultyText rest.now (with_names sort names.now (signature scope.now)) f)) }
    {
        let calls = inner(calls, span)?;
        let [name, others @ ..] = names else {
            return self.items(asked, rest, scope, level, calls);
        };
        if named(scope, name).is_some() {
            return Err(Fault::Again(name.span));
        }
        let Some(next) = level.checked_add(1) else {
            return Err(Fault::Deep(name.span));
        };
        asked.free.push(Free {
            name,
            kind: Kind::of(sort),
        })?;
        let term = numbered(self.heap, sort, level)?;
        let inside = Scope::Named(name, &term, &*scope);
        self.names(asked, sort, others, rest, span, &inside, next, calls)
    }
}

/// What a text asks.
///
/// # Errors
/// A limit; a ring that stands behind something else than declarations; or another fault that the text has: the first that is met.
pub fn ask(heap: Global, items: &[Item]) -> Result<Asked<'_>, Fault>
    ensures asks { IfOk result (λ asked. Asks items.now asked) }
    ensures early { IfOk result (λ _. (f : Fault) → LateRing false items.now f → ⊥) }
    ensures faults { IfErr result (λ f. IsLimit f ⊎ (LateRing false items.now f ⊎ FaultyText items.now outermost f)) }
{
    if let Some(span) = late_ring(items, false) {
        return Err(Fault::Late(span));
    }
    let mut asked = Asked {
        free: Vec::new(heap),
        assumed: Vec::new(heap),
        claimed: Vec::new(heap),
    };
    let mut resolver = Resolver {
        heap,
        parts: MOST_PARTS,
    };
    let outermost = Scope::Outermost;
    resolver.items(&mut asked, items, &outermost, 0, MOST_CALLS)?;
    Ok(asked)
}
