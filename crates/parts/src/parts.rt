// The parts of a formula, as they stand in the text and as formulas over numbers.
ghost use Rattle.std.specs.Prelude.{◌≡◌, ◌++◌, [], ◌∷◌, map, position, string_bytes, IfOk, OnOk, MatchOption, Some, None};
ghost use Rattle.std.specs.List.{list_any};
ghost use Rattle.parts.specs.Parts.{piece_of, denied as denied_of, implied, halves as halves_of, behind_bound as behind_of, under as under_of, is_row as is_row_of, defines as defines_of, one, two, called as called_of, parts as parts_of, stated_by, statements as statements_of};

use formulas::formula::Formula;
use resolve::asked::{Asked, Stated};
use resolve::scope::is_same;
use std::alloc::{AllocError, Global};
use trees::tree::{Binary, Expr, ExprKind, Item, Name, Unary};

/// What stands in a text, that as a formula, the items whose predicates are known there, and whether a row or a ring is spoken of there.
#[derive(Clone, Copy)]
pub struct Part<'t, 'f> {
    pub known: &'t [Item],
    pub expr: &'t Expr,
    pub formula: &'f Formula,
    pub in_row: bool,
}

// What is said of a bound name besides that it is the row's or the ring's, where one is spoken of.
fn behind_bound(in_row: bool, formula: &Formula) -> &Formula
    ensures { result.now ≡ behind_of in_row formula.now }
{
    match (in_row, formula) {
        (true, Formula::And(_, body) | Formula::Implies(_, body)) => &**body,
        _ => formula,
    }
}

// What quantifiers over the names say something of.
fn under<'f>(in_row: bool, names: &[Name], formula: &'f Formula) -> &'f Formula
    ensures { result.now ≡ under_of in_row names.now formula.now }
{
    let [_, others @ ..] = names else {
        return formula;
    };
    match formula {
        Formula::Some1(_, body)
        | Formula::All1(_, body)
        | Formula::Some2(_, body)
        | Formula::All2(_, body) => under(in_row, others, behind_bound(in_row, body)),
        _ => formula,
    }
}

// The formula that is denied.
fn denied(formula: &Formula) -> Option<&Formula>
    ensures { MatchOption result (denied_of formula.now ≡ None) (λ f. denied_of formula.now ≡ Some f.now) }
{
    match formula {
        Formula::Not(inside) => Some(&**inside),
        _ => None,
    }
}

fn implication(formula: &Formula) -> Option<(&Formula, &Formula)>
    ensures { MatchOption result (implied formula.now ≡ None) (λ h. implied formula.now ≡ Some (h.0.now, h.1.now)) }
{
    match formula {
        Formula::Implies(a, b) => Some((&**a, &**b)),
        _ => None,
    }
}

// The two formulas that a connective joins.
fn halves<'f>(binary: Binary, formula: &'f Formula) -> Option<(&'f Formula, &'f Formula)>
    ensures { MatchOption result (halves_of binary formula.now ≡ None) (λ h. halves_of binary formula.now ≡ Some (h.0.now, h.1.now)) }
{
    match (binary, formula) {
        (Binary::And, Formula::And(a, b))
        | (Binary::Or, Formula::Or(a, b))
        | (Binary::Implies, Formula::Implies(a, b)) => Some((&**a, &**b)),
        (Binary::Iff, Formula::And(first, _)) => implication(first),
        _ => None,
    }
}

// Whether an item defines the predicate of this name.
fn defines(item: &Item, name: &Name) -> bool
    ensures { result ≡ defines_of (string_bytes name.now.text) item.now }
{
    match item {
        Item::Predicate(predicate) => is_same(&predicate.name, name),
        _ => false,
    }
}

// Whether from an item on a row or a ring is spoken of.
fn is_row(item: &Item) -> bool
    ensures { result ≡ is_row_of item.now }
{
    match item {
        Item::Row(_) => true,
        _ => false,
    }
}

fn any_row(items: &[Item]) -> bool
    ensures { result ≡ list_any is_row_of items.now }
{
    let [first, others @ ..] = items else {
        return false;
    };
    if is_row(first) {
        return true;
    }
    any_row(others)
}

// Which item defines the predicate of this name.
fn definition(known: &[Item], name: &Name) -> Option<usize>
    ensures { result ≡ position (defines_of (string_bytes name.now.text)) known.now }
{
    known.iter().position(|item| defines(item, name))
}

// The body of a called predicate, which knows the predicates before it.
fn called<'t, 'f>(
    heap: Global,
    known: &'t [Item],
    name: &Name,
    formula: &'f Formula,
) -> Result<Vec<Part<'t, 'f>>, AllocError>
    ensures { IfOk result (λ all. map piece_of all.items ≡ called_of known.now (position (defines_of (string_bytes name.now.text)) known.now) formula.now) }
{
    let Some(i) = definition(known, name) else {
        return Ok(Vec::new(heap));
    };
    let Some(Item::Predicate(predicate)) = known.get(i) else {
        return Ok(Vec::new(heap));
    };
    let body = Part {
        known: &known[..i],
        expr: &predicate.body,
        formula,
        in_row: any_row(&known[..i]),
    };
    Ok(Vec::from_array(heap, [body])?)
}

// The part that a formula denies.
fn opposite<'t, 'f>(
    heap: Global,
    part: Part<'t, 'f>,
    expr: &'t Expr,
) -> Result<Vec<Part<'t, 'f>>, AllocError>
    ensures { IfOk result (λ all. map piece_of all.items ≡ one part.entry.known.now part.entry.in_row expr.now (denied_of part.entry.formula.now)) }
{
    match denied(part.formula) {
        Some(formula) => Ok(Vec::from_array(
            heap,
            [Part {
                known: part.known,
                expr,
                formula,
                in_row: part.in_row,
            }],
        )?),
        None => Ok(Vec::new(heap)),
    }
}

// The two parts that a connective joins.
fn joined<'t, 'f>(
    heap: Global,
    part: Part<'t, 'f>,
    binary: Binary,
    a: &'t Expr,
    b: &'t Expr,
) -> Result<Vec<Part<'t, 'f>>, AllocError>
    ensures { IfOk result (λ all. map piece_of all.items ≡ two part.entry.known.now part.entry.in_row a.now b.now (halves_of binary part.entry.formula.now)) }
{
    match halves(binary, part.formula) {
        Some((first, second)) => {
            let a = Part {
                known: part.known,
                expr: a,
                formula: first,
                in_row: part.in_row,
            };
            let b = Part {
                known: part.known,
                expr: b,
                formula: second,
                in_row: part.in_row,
            };
            Ok(Vec::from_array(heap, [a, b])?)
        }
        None => Ok(Vec::new(heap)),
    }
}

/// The parts of a part that are formulas; of a predicate it is its body. Fails for want of memory.
pub fn parts<'t, 'f>(heap: Global, part: Part<'t, 'f>) -> Result<Vec<Part<'t, 'f>>, AllocError>
    ensures { IfOk result (λ all. map piece_of all.items ≡ parts_of (piece_of part.entry)) }
{
    match &part.expr.kind {
        ExprKind::Unary(Unary::Not, a) => opposite(heap, part, a),
        ExprKind::Binary(sign, a, b) => joined(heap, part, *sign, a, b),
        ExprKind::Bound(_, _, names, body) => {
            let inside = Part {
                known: part.known,
                expr: body,
                formula: under(part.in_row, names, part.formula),
                in_row: part.in_row,
            };
            Ok(Vec::from_array(heap, [inside])?)
        }
        ExprKind::Call(name, _) => called(heap, part.known, name, part.formula),
        _ => Ok(Vec::new(heap)),
    }
}

// What is stated of the text with these items, behind the parts that are there.
fn push_stated<'t, 'f>(
    all: &mut Vec<Part<'t, 'f>>,
    items: &'t [Item],
    stated: &'f [Stated<'t>],
) -> Result<(), AllocError>
    ensures { OnOk result (map piece_of all.new.items ≡ map piece_of all.old.items ++ map (stated_by items.now) stated.now) }
{
    let [first, others @ ..] = stated else {
        return Ok(());
    };
    all.push(Part {
        known: items,
        expr: first.expr,
        formula: &first.formula,
        in_row: first.in_row,
    })?;
    push_stated(all, items, others)
}

/// The assumptions of a text, then its claims. Fails for want of memory.
pub fn statements<'t, 'f>(
    heap: Global,
    items: &'t [Item],
    asked: &'f Asked<'t>,
) -> Result<Vec<Part<'t, 'f>>, AllocError>
    ensures { IfOk result (λ all. map piece_of all.items ≡ statements_of items.now asked.now) }
{
    let mut all = Vec::new(heap);
    push_stated(&mut all, items, &asked.assumed)?;
    push_stated(&mut all, items, &asked.claimed)?;
    Ok(all)
}
