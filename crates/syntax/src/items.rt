// Reads the items of a text, each ended by a semicolon. Each function reads what the tokens begin with, and gives it with the tokens behind it.
ghost use Rattle.std.specs.Prelude.{◌≡◌, ℕ, ◌+◌, ◌<◌, ◌≤◌, ◌∷◌, [], length, IfOk, IfSome, MatchOption, Some, None, string_bytes};
ghost use Rattle.syntax.specs.Parsing.{parse, tail};
ghost use Rattle.tokens.specs.Words.{words};
ghost use Rattle.syntax.specs.Views.{Gives, view};
ghost use Rattle.syntax.specs.Items.{PlainItem, view_parameter, view_parameters, view_item, view_items, sort_of, given, behind_sort, more_parameters, parameters_at, formula_at, predicate_at, free_at, other_at, item_at, header, read_words};

use crate::expression::expression;
use crate::fault::{Fault, Wanted};
use crate::row::{behind_ring, behind_row, named_ring, named_row};
use crate::source::{Source, front, name, names, span, token};
use tokens::kind::Kind;
use tokens::token::Token;
use trees::tree::{Expr, Item, Parameter, Predicate, Sort};

// An expression up to a semicolon.
fn formula<'a>(source: &Source<'_>, tokens: &'a [Token]) -> Result<(Box<Expr>, &'a [Token]), Fault>
    requires known { length tokens.now ≤ source.now.count }
    ensures gives { Gives (λ r. (view r.0.value.kind, words source.now.text.now r.1.now)) result (formula_at (parse source.now.count source.now.open) (words source.now.text.now tokens.now)) }
    ensures less { IfOk result (λ r. length r.1.now < length tokens.now) }
{
    let (part, rest) = expression(source, tokens, source.open, 0)?;
    let (_, rest) = token(source, rest, Kind::Semicolon, Wanted::End(Kind::Semicolon))?;
    Ok((part.expr, rest))
}

// The sort that the tokens begin with.
fn sort<'a>(source: &Source<'_>, tokens: &'a [Token]) -> Option<(Sort, &'a [Token])>
    ensures sort { MatchOption result (sort_of (words source.now.text.now tokens.now) ≡ None) (λ r. sort_of (words source.now.text.now tokens.now) ≡ Some r.0) }
    ensures rest { IfSome result (λ r. words source.now.text.now r.1.now ≡ tail (words source.now.text.now tokens.now)) }
    ensures less { IfSome result (λ r. length r.1.now + 1 ≡ length tokens.now) }
{
    match tokens {
        [first, rest @ ..] => match first.kind {
            Kind::Var1 => Some((Sort::Place, rest)),
            Kind::Var2 => Some((Sort::Set, rest)),
            _ => None,
        },
        [] => None,
    }
}

// The sort that the tokens begin with, or else the sort of the parameter before.
fn sort_or<'a>(source: &Source<'_>, tokens: &'a [Token], before: Sort) -> (Sort, &'a [Token])
    ensures sort { result.0 ≡ given before (sort_of (words source.now.text.now tokens.now)) }
    ensures rest { words source.now.text.now result.1.now ≡ behind_sort (sort_of (words source.now.text.now tokens.now)) (words source.now.text.now tokens.now) }
    ensures less { length result.1.now ≤ length tokens.now }
{
    match sort(source, tokens) {
        Some((other, rest)) => (other, rest),
        None => (before, tokens),
    }
}

// Parameters behind the first one. A name without `var1` or `var2` has the sort of the name before it.
fn further<'a>(
    source: &Source<'_>,
    tokens: &'a [Token],
    first: Parameter,
) -> Result<(Vec<Parameter>, &'a [Token]), Fault>
    requires known { length tokens.now ≤ source.now.count }
    ensures gives { Gives (λ r. (view_parameters r.0.items, words source.now.text.now r.1.now)) result (more_parameters source.now.count first.sort (view_parameter first ∷ []) (words source.now.text.now tokens.now)) }
    ensures less { IfOk result (λ r. length r.1.now ≤ length tokens.now) }
{
    let mut all = Vec::new(source.heap);
    let mut sort = first.sort;
    let mut rest = tokens;
    all.push(first)?;
    while let Some((_, behind)) = front(source, rest, Kind::Comma) {
        let (other, at) = sort_or(source, behind, sort);
        let (word, more) = name(source, at)?;
        all.push(Parameter {
            sort: other,
            name: word,
        })?;
        sort = other;
        rest = more;
    }
    Ok((all, rest))
}

// A predicate's parameters, from behind the sign that opens them.
fn parameters<'a>(
    source: &Source<'_>,
    tokens: &'a [Token],
) -> Result<(Vec<Parameter>, &'a [Token]), Fault>
    requires known { length tokens.now ≤ source.now.count }
    ensures gives { Gives (λ r. (view_parameters r.0.items, words source.now.text.now r.1.now)) result (parameters_at source.now.count (words source.now.text.now tokens.now)) }
    ensures less { IfOk result (λ r. length r.1.now < length tokens.now) }
{
    if let Some((_, rest)) = front(source, tokens, Kind::Close) {
        return Ok((Vec::new(source.heap), rest));
    }
    let Some((sort, rest)) = sort(source, tokens) else {
        return Err(Fault::Expected(Wanted::Sort, span(source, tokens)));
    };
    let (word, rest) = name(source, rest)?;
    let (all, rest) = further(source, rest, Parameter { sort, name: word })?;
    let (_, rest) = token(source, rest, Kind::Close, Wanted::More(Kind::Close))?;
    Ok((all, rest))
}

// A predicate, from behind `pred`.
fn predicate<'a>(source: &Source<'_>, tokens: &'a [Token]) -> Result<(Item, &'a [Token]), Fault>
    requires known { length tokens.now ≤ source.now.count }
    ensures gives { Gives (λ r. (view_item r.0, words source.now.text.now r.1.now)) result (predicate_at (parse source.now.count source.now.open) source.now.count (words source.now.text.now tokens.now)) }
    ensures less { IfOk result (λ r. length r.1.now < length tokens.now) }
{
    let (name, rest) = name(source, tokens)?;
    let (_, rest) = token(source, rest, Kind::Open, Wanted::Token(Kind::Open))?;
    let (parameters, rest) = parameters(source, rest)?;
    let (_, rest) = token(source, rest, Kind::Equal, Wanted::Token(Kind::Equal))?;
    let (body, rest) = formula(source, rest)?;
    let predicate = Predicate {
        name,
        parameters,
        body: Box::into_inner(body),
    };
    Ok((Item::Predicate(predicate), rest))
}

// Free names, from behind their sort.
fn free<'a>(
    source: &Source<'_>,
    tokens: &'a [Token],
    sort: Sort,
) -> Result<(Item, &'a [Token]), Fault>
    requires known { length tokens.now ≤ source.now.count }
    ensures gives { Gives (λ r. (view_item r.0, words source.now.text.now r.1.now)) result (free_at source.now.count sort (words source.now.text.now tokens.now)) }
    ensures less { IfOk result (λ r. length r.1.now < length tokens.now) }
{
    let (names, rest) = names(source, tokens)?;
    let (_, rest) = token(source, rest, Kind::Semicolon, Wanted::More(Kind::Semicolon))?;
    Ok((Item::Free(sort, names), rest))
}

// An item that is neither a row nor a ring.
fn other<'a>(source: &Source<'_>, tokens: &'a [Token]) -> Result<(Item, &'a [Token]), Fault>
    requires known { length tokens.now ≤ source.now.count }
    requires some { 0 < length tokens.now }
    ensures gives { Gives (λ r. (view_item r.0, words source.now.text.now r.1.now)) result (other_at (parse source.now.count source.now.open) source.now.count (words source.now.text.now tokens.now)) }
    ensures less { IfOk result (λ r. length r.1.now < length tokens.now) }
{
    let [first, rest @ ..] = tokens else {
        return Err(Fault::Expected(Wanted::Item, span(source, tokens)));
    };
    match first.kind {
        Kind::Var1 => free(source, rest, Sort::Place),
        Kind::Var2 => free(source, rest, Sort::Set),
        Kind::Predicate => predicate(source, rest),
        Kind::Assert => {
            let (assumed, rest) = formula(source, rest)?;
            Ok((Item::Assert(Box::into_inner(assumed)), rest))
        }
        _ => {
            let (claimed, rest) = formula(source, tokens)?;
            Ok((Item::Formula(Box::into_inner(claimed)), rest))
        }
    }
}

fn item<'a>(source: &Source<'_>, tokens: &'a [Token]) -> Result<(Item, &'a [Token]), Fault>
    requires known { length tokens.now ≤ source.now.count }
    requires some { 0 < length tokens.now }
    ensures gives { Gives (λ r. (view_item r.0, words source.now.text.now r.1.now)) result (item_at (parse source.now.count source.now.open) source.now.count (words source.now.text.now tokens.now)) }
    ensures less { IfOk result (λ r. length r.1.now < length tokens.now) }
{
    if let Some((span, rest)) = behind_row(source, tokens) {
        return Ok((Item::Row(named_row(source.heap, span)?), rest));
    }
    if let Some((span, rest)) = behind_ring(source, tokens) {
        return Ok((Item::Row(named_ring(source.heap, span)?), rest));
    }
    other(source, tokens)
}

// The tokens behind `ws1s;`, with which a text may begin.
fn behind_header<'a>(source: &Source<'_>, tokens: &'a [Token]) -> Result<&'a [Token], Fault>
    ensures gives { Gives (λ r. words source.now.text.now r.now) result (header (words source.now.text.now tokens.now)) }
    ensures less { IfOk result (λ r. length r.now ≤ length tokens.now) }
{
    match front(source, tokens, Kind::Ws1s) {
        Some((_, rest)) => {
            let (_, rest) = token(
                source,
                rest,
                Kind::Semicolon,
                Wanted::Token(Kind::Semicolon),
            )?;
            Ok(rest)
        }
        None => Ok(tokens),
    }
}

/// All items.
pub fn items(source: &Source<'_>, tokens: &[Token]) -> Result<Vec<Item>, Fault>
    requires known { length tokens.now ≤ source.now.count }
    ensures { Gives (λ v. view_items v.items) result (read_words source.now.count source.now.open (words source.now.text.now tokens.now)) }
{
    let mut all = Vec::new(source.heap);
    let mut rest = behind_header(source, tokens)?;
    while !rest.is_empty() {
        let (read, more) = item(source, rest)?;
        all.push(read)?;
        rest = more;
    }
    Ok(all)
}
