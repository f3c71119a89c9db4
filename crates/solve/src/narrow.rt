// Where too much is told apart: the innermost part of a text that is too large by itself.
ghost use Rattle.std.specs.Prelude.{◌≡◌, map, IfOk, OnOk, MatchBool};
ghost use Rattle.parts.specs.Parts.{Within, piece_of, parts as parts_of, statements as statements_of};
ghost use Rattle.solve.specs.Narrowing.{with_name, with_names, own_names, IsLarge, IsSmall, IsLargeOf, IsInnermost, NamesPart, Narrowest};

use crate::first::first_row;
use crate::stop::Stop;
use claims::encode;
use first_word::first_word::Found;
use formula_claims::claimed::{Refusal, claim_bytes};
use formulas::formula::Formula;
use formulas::free::free_names;
use formulas::name::Name;
use parts::parts::{Part, parts, statements};
use resolve::asked::{Asked, ask};
use std::alloc::{AllocError, Global};
use trees::position::Span;
use trees::tree::Item;
use workspace::largest::fits;

// Puts the name behind those that are there, unless it is one of them.
fn push_name(names: &mut Vec<Name>, name: Name) -> Result<(), AllocError>
    ensures { OnOk result (names.new.items ≡ with_name names.old.items name) }
{
    if names.contains(&name) {
        return Ok(());
    }
    names.push(name)?;
    Ok(())
}

fn push_names(names: &mut Vec<Name>, more: &[Name]) -> Result<(), AllocError>
    ensures { OnOk result (names.new.items ≡ with_names names.old.items more.now) }
{
    let [first, others @ ..] = more else {
        return Ok(());
    };
    push_name(names, *first)?;
    push_names(names, others)
}

// The names that are free in a formula, each once.
fn names_of(alloc: Global, formula: &Formula) -> Result<Vec<Name>, AllocError>
    ensures { IfOk result (λ names. names.items ≡ own_names formula.now) }
{
    let mut names = Vec::new(alloc);
    push_names(&mut names, &free_names(alloc, formula)?)?;
    Ok(names)
}

// Whether more than n classes have to be told apart in a formula. One that cannot be judged alone is not said to be too large.
fn is_large(alloc: Global, formula: &Formula, n: u32) -> Result<bool, Stop>
    ensures { IfOk result (λ large. MatchBool large (IsLarge n formula.now) (IsSmall n formula.now)) }
{
    let names = names_of(alloc, formula)?;
    let claim = match claim_bytes(alloc, formula, &names) {
        Ok(claim) => claim,
        Err(Refusal::Claim(encode::Refusal::OutOfMemory)) => return Err(Stop::Memory),
        Err(Refusal::Claim(encode::Refusal::TooManyBytes(_))) => return Ok(false),
        Err(Refusal::Claim(encode::Refusal::TooManySets(_))) => return Ok(false),
        Err(Refusal::Unlisted(_)) => return Ok(false),
    };
    if !fits(&claim, n) {
        return Ok(false);
    }
    match first_row(alloc, &claim, n)? {
        Found::TooLarge => Ok(true),
        Found::Nothing => Ok(false),
        Found::First(_) => Ok(false),
    }
}

// The first of the parts that is too large.
fn first_large<'t, 'f>(
    alloc: Global,
    all: &[Part<'t, 'f>],
    n: u32,
) -> Result<Option<Part<'t, 'f>>, Stop>
    ensures { IfOk result (λ found. IsLargeOf n (map piece_of all.now) found) }
{
    let [first, others @ ..] = all else {
        return Ok(None);
    };
    if is_large(alloc, first.formula, n)? {
        return Ok(Some(*first));
    }
    first_large(alloc, others, n)
}

// The first part of a part that is too large.
fn large_part<'t, 'f>(
    alloc: Global,
    part: Part<'t, 'f>,
    n: u32,
) -> Result<Option<Part<'t, 'f>>, Stop>
    ensures { IfOk result (λ found. IsLargeOf n (parts_of (piece_of part.entry)) found) }
{
    let inner = parts(alloc, part)?;
    first_large(alloc, &inner, n)
}

// The innermost part that is too large of one that is. The invariant: so far each is too large and a part of the one before. Parts are smaller than what they are parts of, so this ends.
fn innermost<'t, 'f>(alloc: Global, whole: Part<'t, 'f>, n: u32) -> Result<Part<'t, 'f>, Stop>
    requires { IsLarge n whole.formula.now }
    ensures { IfOk result (λ p. Within (piece_of whole.entry) (piece_of p) × IsInnermost n (piece_of p)) }
{
    let mut part = whole;
    while let Some(inner) = large_part(alloc, part, n)? {
        part = inner;
    }
    Ok(part)
}

// The first assumption or claim that is too large.
fn large_statement<'t, 'f>(
    alloc: Global,
    items: &'t [Item],
    asked: &'f Asked<'t>,
    n: u32,
) -> Result<Option<Part<'t, 'f>>, Stop>
    ensures { IfOk result (λ found. IsLargeOf n (statements_of items.now asked.now) found) }
{
    let all = statements(alloc, items, asked)?;
    first_large(alloc, &all, n)
}

// The same in what is asked.
fn narrowest_of(
    alloc: Global,
    items: &[Item],
    asked: &Asked<'_>,
    n: u32,
) -> Result<Option<Span>, Stop>
    ensures { IfOk result (λ found. NamesPart items.now asked.now n found) }
{
    match large_statement(alloc, items, asked, n)? {
        Some(whole) => Ok(Some(innermost(alloc, whole, n)?.expr.span)),
        None => Ok(None),
    }
}

/// Where an innermost part of a text stands that is too large by itself for n classes, while none of its parts is; none where no assumption and no claim is too large by itself. What cannot be judged by itself, for its sets, its bytes or the memory that n classes take, is not said to be too large.
///
/// # Errors
/// That the text says nothing, and memory.
pub fn narrowest(alloc: Global, items: &[Item], n: u32) -> Result<Option<Span>, Stop>
    ensures { IfOk result (λ found. Narrowest items.now n found) }
{
    let asked = ask(alloc, items)?;
    narrowest_of(alloc, items, &asked, n)
}
