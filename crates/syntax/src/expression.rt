// Reads expressions. Each function reads what the tokens begin with, and gives it with the tokens behind it.
// An expression is an operand and the operators behind it, as long as they bind tight enough; what stands right of an operator is an expression whose
// operators bind tighter. A quantifier and `~` take as much behind them as they can.
ghost use Rattle.std.specs.Prelude.{◌≡◌, ℕ, ◌+◌, ◌<◌, ◌≤◌, ◌∷◌, length, max, IfOk, string_bytes};
ghost use Rattle.tokens.specs.declared.kind.Kind.TheVariants as kind;
ghost use Rattle.syntax.specs.Plain.{joined, bound, listed, call, none};
ghost use Rattle.syntax.specs.Parsing.{parse, operand, operand_of, prefix, quantified, set_at, items, named_at, arguments, paren_at, empty_at, count_at, within, lowest_of, depth, depths};
ghost use Rattle.tokens.specs.Words.{words};
ghost use Rattle.syntax.specs.Views.{Gives, view, view_all};

use crate::fault::{Fault, Wanted};
use crate::operators::{EXTREME, tightness_of};
use crate::part::{Listing, Part, call_of, called_alone, joined, leaf, lowest, set_of, whole};
use crate::source::{Source, front, name, names, number, operator, span, token};
use crate::tally::{counted, tally_at};
use tokens::kind::Kind;
use tokens::token::Token;
use trees::position::Span;
use trees::tree::{Binary, Expr, ExprKind, Name, Quantifier, Sort, Unary};

/// How many expressions may be open, one within the other: a part takes one, and so do parentheses.
pub const MOST_OPEN: u32 = 2000;

/// An expression whose operators bind at least as tight as `lowest`.
#[cycle(reading)]
pub fn expression<'a>(
    source: &Source<'_>,
    tokens: &'a [Token],
    calls: u32,
    lowest: u8,
) -> Result<(Part, &'a [Token]), Fault>
    requires known { length tokens.now ≤ source.now.count }
    ensures gives { Gives (λ r. (view r.0.expr.value.kind, words source.now.text.now r.1.now)) result (parse source.now.count calls lowest (words source.now.text.now tokens.now)) }
    ensures depth { IfOk result (λ r. r.0.depth ≡ depth (view r.0.expr.value.kind)) }
    ensures less { IfOk result (λ r. length r.1.now < length tokens.now) }
{
    if calls == 0 {
        return Err(Fault::Deep(span(source, tokens)));
    }
    let fewer = calls - 1;
    let (mut left, mut rest) = operand(source, tokens, fewer)?;
    while let Some((binary, behind)) = operator(source, rest, lowest) {
        let (right, more) = expression(source, behind, fewer, tightness_of(binary).right)?;
        left = joined(source, binary, left, right, more)?;
        rest = more;
    }
    Ok((left, rest))
}

// What an operator stands between.
#[cycle(reading)]
fn operand<'a>(
    source: &Source<'_>,
    tokens: &'a [Token],
    calls: u32,
) -> Result<(Part, &'a [Token]), Fault>
    requires known { length tokens.now ≤ source.now.count }
    ensures gives { Gives (λ r. (view r.0.expr.value.kind, words source.now.text.now r.1.now)) result (operand (parse source.now.count calls) source.now.count (words source.now.text.now tokens.now)) }
    ensures depth { IfOk result (λ r. r.0.depth ≡ depth (view r.0.expr.value.kind)) }
    ensures less { IfOk result (λ r. length r.1.now < length tokens.now) }
{
    let [first, rest @ ..] = tokens else {
        return Err(Fault::Expected(Wanted::Operand, span(source, tokens)));
    };
    let at = first.span;
    match first.kind {
        Kind::Not => prefix(source, at, rest, calls, Unary::Not),
        Kind::Min => prefix(source, at, rest, calls, Unary::Min),
        Kind::Max => prefix(source, at, rest, calls, Unary::Max),
        Kind::Ex1 => bound(source, at, rest, calls, (Quantifier::Some, Sort::Place)),
        Kind::Ex2 => bound(source, at, rest, calls, (Quantifier::Some, Sort::Set)),
        Kind::All1 => bound(source, at, rest, calls, (Quantifier::All, Sort::Place)),
        Kind::All2 => bound(source, at, rest, calls, (Quantifier::All, Sort::Set)),
        Kind::Open => {
            let (inside, _, rest) = enclosed(source, rest, calls)?;
            Ok((inside, rest))
        }
        Kind::OpenSet => listed(source, at, rest, calls),
        Kind::Or => count(source, at, rest, calls),
        Kind::Name => {
            let (name, rest) = name(source, tokens)?;
            named(source, name, rest, calls)
        }
        Kind::Empty => empty(source, at, rest, calls),
        Kind::True => leaf(source, at, ExprKind::True, rest),
        Kind::False => leaf(source, at, ExprKind::False, rest),
        Kind::Number => leaf(source, at, ExprKind::Number(number(source, *first)?), rest),
        _ => Err(Fault::Expected(Wanted::Operand, at)),
    }
}

// A sign or word, which stands at `at`, before its operand.
#[cycle(reading)]
fn prefix<'a>(
    source: &Source<'_>,
    at: Span,
    tokens: &'a [Token],
    calls: u32,
    unary: Unary,
) -> Result<(Part, &'a [Token]), Fault>
    requires known { length tokens.now ≤ source.now.count }
    ensures gives { Gives (λ r. (view r.0.expr.value.kind, words source.now.text.now r.1.now)) result (prefix (parse source.now.count calls) unary (lowest_of unary) (words source.now.text.now tokens.now)) }
    ensures depth { IfOk result (λ r. r.0.depth ≡ depth (view r.0.expr.value.kind)) }
    ensures less { IfOk result (λ r. length r.1.now < length tokens.now) }
{
    let (inside, rest) = expression(source, tokens, calls, lowest(unary))?;
    let span = at.to(inside.expr.span);
    let kind = ExprKind::Unary(unary, inside.expr);
    whole(source, at, Expr { kind, span }, inside.depth, rest)
}

// What stands behind a quantifier: its names, and what is said of them.
#[cycle(reading)]
fn bound<'a>(
    source: &Source<'_>,
    at: Span,
    tokens: &'a [Token],
    calls: u32,
    quantifier: (Quantifier, Sort),
) -> Result<(Part, &'a [Token]), Fault>
    requires known { length tokens.now ≤ source.now.count }
    ensures gives { Gives (λ r. (view r.0.expr.value.kind, words source.now.text.now r.1.now)) result (quantified (parse source.now.count calls) source.now.count quantifier.0 quantifier.1 (words source.now.text.now tokens.now)) }
    ensures depth { IfOk result (λ r. r.0.depth ≡ depth (view r.0.expr.value.kind)) }
    ensures less { IfOk result (λ r. length r.1.now < length tokens.now) }
{
    let (names, rest) = names(source, tokens)?;
    let (_, rest) = token(source, rest, Kind::Colon, Wanted::More(Kind::Colon))?;
    let (inside, rest) = expression(source, rest, calls, 0)?;
    let span = at.to(inside.expr.span);
    let (quantifier, sort) = quantifier;
    let kind = ExprKind::Bound(quantifier, sort, names, inside.expr);
    whole(source, at, Expr { kind, span }, inside.depth, rest)
}

// What stands in parentheses, up to the one that closes them, and where that stands.
#[cycle(reading)]
fn enclosed<'a>(
    source: &Source<'_>,
    tokens: &'a [Token],
    calls: u32,
) -> Result<(Part, Span, &'a [Token]), Fault>
    requires known { length tokens.now ≤ source.now.count }
    ensures gives { Gives (λ r. (view r.0.expr.value.kind, words source.now.text.now r.2.now)) result (paren_at (parse source.now.count calls) (words source.now.text.now tokens.now)) }
    ensures depth { IfOk result (λ r. r.0.depth ≡ depth (view r.0.expr.value.kind)) }
    ensures less { IfOk result (λ r. length r.2.now < length tokens.now) }
{
    let (inside, rest) = expression(source, tokens, calls, 0)?;
    let (close, rest) = token(source, rest, Kind::Close, Wanted::End(Kind::Close))?;
    Ok((inside, close, rest))
}

// Expressions with commas between them, up to a sign that closes them.
#[cycle(reading)]
fn list<'a>(
    source: &Source<'_>,
    tokens: &'a [Token],
    calls: u32,
    close: Kind,
) -> Result<(Listing, &'a [Token]), Fault>
    requires known { length tokens.now ≤ source.now.count }
    ensures gives { Gives (λ r. (view_all r.0.all.items, words source.now.text.now r.1.now)) result (items (parse source.now.count calls) source.now.count close (words source.now.text.now tokens.now)) }
    ensures depth { IfOk result (λ r. r.0.depth ≡ depths (view_all r.0.all.items)) }
    ensures less { IfOk result (λ r. length r.1.now < length tokens.now) }
{
    let mut all = Vec::new(source.heap);
    let (first, mut rest) = expression(source, tokens, calls, 0)?;
    let mut depth = first.depth;
    all.push(Box::into_inner(first.expr))?;
    while let Some((_, behind)) = front(source, rest, Kind::Comma) {
        let (further, more) = expression(source, behind, calls, 0)?;
        depth = depth.max(further.depth);
        all.push(Box::into_inner(further.expr))?;
        rest = more;
    }
    let (end, rest) = token(source, rest, close, Wanted::End(close))?;
    Ok((
        Listing {
            all,
            depth,
            close: end,
        },
        rest,
    ))
}

// `{p, q}`, from behind the sign that opens it, which stands at `at`.
#[cycle(reading)]
fn listed<'a>(
    source: &Source<'_>,
    at: Span,
    tokens: &'a [Token],
    calls: u32,
) -> Result<(Part, &'a [Token]), Fault>
    requires known { length tokens.now ≤ source.now.count }
    ensures gives { Gives (λ r. (view r.0.expr.value.kind, words source.now.text.now r.1.now)) result (set_at (parse source.now.count calls) source.now.count (words source.now.text.now tokens.now)) }
    ensures depth { IfOk result (λ r. r.0.depth ≡ depth (view r.0.expr.value.kind)) }
    ensures less { IfOk result (λ r. length r.1.now < length tokens.now) }
{
    let (list, rest) = list(source, tokens, calls, Kind::CloseSet)?;
    set_of(source, at, list, rest)
}

// `|S| mod m = r`, from behind the sign before the set, which stands at `at`.
#[cycle(reading)]
fn count<'a>(
    source: &Source<'_>,
    at: Span,
    tokens: &'a [Token],
    calls: u32,
) -> Result<(Part, &'a [Token]), Fault>
    requires known { length tokens.now ≤ source.now.count }
    ensures gives { Gives (λ r. (view r.0.expr.value.kind, words source.now.text.now r.1.now)) result (count_at (parse source.now.count calls) (words source.now.text.now tokens.now)) }
    ensures depth { IfOk result (λ r. r.0.depth ≡ depth (view r.0.expr.value.kind)) }
    ensures less { IfOk result (λ r. length r.1.now < length tokens.now) }
{
    let (set, rest) = expression(source, tokens, calls, EXTREME + 1)?;
    let (_, rest) = token(source, rest, Kind::Or, Wanted::End(Kind::Or))?;
    let (tally, rest) = tally_at(source, rest)?;
    counted(source, at, set, tally, rest)
}

// What stands behind a name: nothing, or a predicate's arguments.
#[cycle(reading)]
fn named<'a>(
    source: &Source<'_>,
    name: Name,
    tokens: &'a [Token],
    calls: u32,
) -> Result<(Part, &'a [Token]), Fault>
    requires known { length tokens.now ≤ source.now.count }
    ensures gives { Gives (λ r. (view r.0.expr.value.kind, words source.now.text.now r.1.now)) result (named_at (parse source.now.count calls) source.now.count (string_bytes name.text) (words source.now.text.now tokens.now)) }
    ensures depth { IfOk result (λ r. r.0.depth ≡ depth (view r.0.expr.value.kind)) }
    ensures less { IfOk result (λ r. length r.1.now ≤ length tokens.now) }
{
    let Some((_, rest)) = front(source, tokens, Kind::Open) else {
        return leaf(source, name.span, ExprKind::Named(name), tokens);
    };
    arguments(source, name, rest, calls)
}

// A predicate's arguments, from behind the sign that opens them.
#[cycle(reading)]
fn arguments<'a>(
    source: &Source<'_>,
    name: Name,
    tokens: &'a [Token],
    calls: u32,
) -> Result<(Part, &'a [Token]), Fault>
    requires known { length tokens.now ≤ source.now.count }
    ensures gives { Gives (λ r. (view r.0.expr.value.kind, words source.now.text.now r.1.now)) result (arguments (parse source.now.count calls) source.now.count (string_bytes name.text) (words source.now.text.now tokens.now)) }
    ensures depth { IfOk result (λ r. r.0.depth ≡ depth (view r.0.expr.value.kind)) }
    ensures less { IfOk result (λ r. length r.1.now ≤ length tokens.now) }
{
    if let Some((close, rest)) = front(source, tokens, Kind::Close) {
        let span = name.span.to(close);
        return called_alone(source, name, span, rest);
    }
    let (list, rest) = list(source, tokens, calls, Kind::Close)?;
    call_of(source, name, list, rest)
}

// `empty`, or `empty(X)`, from behind the word, which stands at `at`.
#[cycle(reading)]
fn empty<'a>(
    source: &Source<'_>,
    at: Span,
    tokens: &'a [Token],
    calls: u32,
) -> Result<(Part, &'a [Token]), Fault>
    requires known { length tokens.now ≤ source.now.count }
    ensures gives { Gives (λ r. (view r.0.expr.value.kind, words source.now.text.now r.1.now)) result (empty_at (parse source.now.count calls) (words source.now.text.now tokens.now)) }
    ensures depth { IfOk result (λ r. r.0.depth ≡ depth (view r.0.expr.value.kind)) }
    ensures less { IfOk result (λ r. length r.1.now ≤ length tokens.now) }
{
    let Some((_, rest)) = front(source, tokens, Kind::Open) else {
        return leaf(source, at, ExprKind::Empty, tokens);
    };
    let (inside, close, rest) = enclosed(source, rest, calls)?;
    let span = at.to(close);
    let kind = ExprKind::Unary(Unary::IsEmpty, inside.expr);
    whole(source, at, Expr { kind, span }, inside.depth, rest)
}
