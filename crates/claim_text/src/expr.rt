// A formula as a tree of the readable form, with words in place of numbers.
use crate::known::Known;
use crate::refusal::Refusal;
use formulas::formula::{Formula, Group, Place};
use formulas::name::Name;
use kinds::multiple::Remainder;
use std::alloc::{AllocError, Global};
use trees::position::Span;
use trees::tree;
use trees::tree::{Binary, Expr, ExprKind, Quantifier, Sort, Spanned, Unary};

// What is printed stands in no text yet.
const NOWHERE: Span = Span { start: 0, end: 0 };

fn expr(kind: ExprKind) -> Expr {
    Expr {
        kind,
        span: NOWHERE,
    }
}

/// A name of the readable form.
pub fn name_of(alloc: Global, word: &str) -> Result<tree::Name, AllocError> {
    Ok(tree::Name {
        text: String::from_str(alloc, word)?,
        span: NOWHERE,
    })
}

fn named(alloc: Global, name: Name, known: &Known) -> Result<Expr, Refusal> {
    match known.word(name) {
        Some(word) => Ok(expr(ExprKind::Named(name_of(alloc, word)?))),
        None => match name {
            Name::OfPlace(x) | Name::OfGroup(x) => Err(Refusal::Unnamed(x)),
        },
    }
}

fn binary(alloc: Global, sign: Binary, left: Expr, right: Expr) -> Result<Expr, AllocError> {
    let left = Box::new(alloc, left)?;
    let right = Box::new(alloc, right)?;
    Ok(expr(ExprKind::Binary(sign, left, right)))
}

fn unary(alloc: Global, sign: Unary, inside: Expr) -> Result<Expr, AllocError> {
    Ok(expr(ExprKind::Unary(sign, Box::new(alloc, inside)?)))
}

// The place so many places behind one, or before it.
fn moved(alloc: Global, sign: Binary, place: Expr, steps: u32) -> Result<Expr, AllocError> {
    binary(alloc, sign, place, expr(ExprKind::Number(steps)))
}

#[cycle(terms)]
fn of_place(alloc: Global, place: &Place, known: &Known) -> Result<Expr, Refusal> {
    match place {
        Place::Named(x) => named(alloc, Name::OfPlace(*x), known),
        Place::First => Ok(expr(ExprKind::Number(0))),
        Place::Succ(t) => Ok(moved(alloc, Binary::Plus, of_place(alloc, t, known)?, 1)?),
        Place::Prev(t) => Ok(moved(alloc, Binary::Minus, of_place(alloc, t, known)?, 1)?),
        Place::Least(s) => Ok(unary(alloc, Unary::Min, of_group(alloc, s, known)?)?),
        Place::Most(s) => Ok(unary(alloc, Unary::Max, of_group(alloc, s, known)?)?),
    }
}

#[cycle(terms)]
fn of_group(alloc: Global, group: &Group, known: &Known) -> Result<Expr, Refusal> {
    match group {
        Group::Named(x) => named(alloc, Name::OfGroup(*x), known),
        Group::Empty => Ok(expr(ExprKind::Empty)),
        Group::Only(t) => {
            let mut all = Vec::new(alloc);
            all.push(of_place(alloc, t, known)?)?;
            Ok(expr(ExprKind::Listed(all)))
        }
        Group::Union(s, t) => {
            let left = of_group(alloc, s, known)?;
            let right = of_group(alloc, t, known)?;
            Ok(binary(alloc, Binary::Union, left, right)?)
        }
        Group::Inter(s, t) => {
            let left = of_group(alloc, s, known)?;
            let right = of_group(alloc, t, known)?;
            Ok(binary(alloc, Binary::Inter, left, right)?)
        }
        Group::Minus(s, t) => {
            let left = of_group(alloc, s, known)?;
            let right = of_group(alloc, t, known)?;
            Ok(binary(alloc, Binary::Without, left, right)?)
        }
    }
}

fn of_groups(
    alloc: Global,
    sign: Binary,
    s: &Group,
    t: &Group,
    known: &Known,
) -> Result<Expr, Refusal> {
    let left = of_group(alloc, s, known)?;
    let right = of_group(alloc, t, known)?;
    Ok(binary(alloc, sign, left, right)?)
}

fn of_places(
    alloc: Global,
    sign: Binary,
    s: &Place,
    t: &Place,
    known: &Known,
) -> Result<Expr, Refusal> {
    let left = of_place(alloc, s, known)?;
    let right = of_place(alloc, t, known)?;
    Ok(binary(alloc, sign, left, right)?)
}

fn lies(alloc: Global, sign: Binary, t: &Place, s: &Group, known: &Known) -> Result<Expr, Refusal> {
    let left = of_place(alloc, t, known)?;
    let right = of_group(alloc, s, known)?;
    Ok(binary(alloc, sign, left, right)?)
}

fn number(n: u8) -> Spanned<u32> {
    Spanned {
        kind: u32::from(n),
        span: NOWHERE,
    }
}

// How many places a set has, by a number.
fn of_count(
    alloc: Global,
    s: &Group,
    remainder: Remainder,
    known: &Known,
) -> Result<Expr, Refusal> {
    let set = Box::new(alloc, of_group(alloc, s, known)?)?;
    Ok(expr(ExprKind::Count(set, number(remainder.modulus), number(remainder.rest))))
}

/// The formula, where its names are known by those words; a name that is not known is refused.
#[cycle(formulas)]
pub fn of_formula(alloc: Global, formula: &Formula, known: &Known) -> Result<Expr, Refusal> {
    match formula {
        Formula::True => Ok(expr(ExprKind::True)),
        Formula::Same(s, t) => of_places(alloc, Binary::Equal, s, t, known),
        Formula::Less(s, t) => of_places(alloc, Binary::Less, s, t, known),
        Formula::In(t, s) => lies(alloc, Binary::In, t, s, known),
        Formula::Sub(s, t) => of_groups(alloc, Binary::Sub, s, t, known),
        Formula::Count(s, remainder) => of_count(alloc, s, *remainder, known),
        Formula::Not(a) => of_opposite(alloc, a, known),
        Formula::And(a, b) => {
            let left = of_formula(alloc, a, known)?;
            let right = of_formula(alloc, b, known)?;
            Ok(binary(alloc, Binary::And, left, right)?)
        }
        Formula::Or(a, b) => {
            let left = of_formula(alloc, a, known)?;
            let right = of_formula(alloc, b, known)?;
            Ok(binary(alloc, Binary::Or, left, right)?)
        }
        Formula::Implies(a, b) => {
            let left = of_formula(alloc, a, known)?;
            let right = of_formula(alloc, b, known)?;
            Ok(binary(alloc, Binary::Implies, left, right)?)
        }
        Formula::Some1(x, a) => of_bound(alloc, Quantifier::Some, Name::OfPlace(*x), a, known),
        Formula::All1(x, a) => of_bound(alloc, Quantifier::All, Name::OfPlace(*x), a, known),
        Formula::Some2(x, a) => of_bound(alloc, Quantifier::Some, Name::OfGroup(*x), a, known),
        Formula::All2(x, a) => of_bound(alloc, Quantifier::All, Name::OfGroup(*x), a, known),
    }
}

// The opposite of a formula: where it has a sign of its own, by that.
#[cycle(formulas)]
fn of_opposite(alloc: Global, formula: &Formula, known: &Known) -> Result<Expr, Refusal> {
    match formula {
        Formula::True => Ok(expr(ExprKind::False)),
        Formula::Same(s, t) => of_places(alloc, Binary::Differs, s, t, known),
        Formula::In(t, s) => lies(alloc, Binary::NotIn, t, s, known),
        other => Ok(unary(alloc, Unary::Not, of_formula(alloc, other, known)?)?),
    }
}

// A place or a set that is bound, by a new word.
#[cycle(formulas)]
fn of_bound(
    alloc: Global,
    quantifier: Quantifier,
    name: Name,
    formula: &Formula,
    known: &Known,
) -> Result<Expr, Refusal> {
    let word = known.new_word(alloc, name)?;
    let inner = Known::Bound(name, word.as_str(), &*known);
    let body = of_formula(alloc, formula, &inner)?;
    let sort = match name {
        Name::OfPlace(_) => Sort::Place,
        Name::OfGroup(_) => Sort::Set,
    };
    Ok(bound(alloc, quantifier, sort, word.as_str(), body)?)
}

// Where what is said begins with more names that are bound alike, they stand behind one word.
fn bound(
    alloc: Global,
    quantifier: Quantifier,
    sort: Sort,
    word: &str,
    body: Expr,
) -> Result<Expr, AllocError> {
    let mut names = Vec::new(alloc);
    names.push(name_of(alloc, word)?)?;
    match body.kind {
        ExprKind::Bound(other, of, more, inside) => {
            if other == quantifier && of == sort {
                for name in more {
                    names.push(name)?;
                }
                return Ok(expr(ExprKind::Bound(quantifier, sort, names, inside)));
            }
            let body = Box::new(alloc, expr(ExprKind::Bound(other, of, more, inside)))?;
            Ok(expr(ExprKind::Bound(quantifier, sort, names, body)))
        }
        kind => Ok(expr(ExprKind::Bound(quantifier, sort, names, Box::new(alloc, expr(kind))?))),
    }
}
