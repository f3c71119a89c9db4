// Trees around parts that were read, with how many parts stand within one another.
ghost use Rattle.std.specs.Prelude.{◌≡◌, ℕ, ◌+◌, max, List, Ok, IfOk, string_bytes};
ghost use Rattle.syntax.specs.Plain.{Plain, joined, listed, call, none};
ghost use Rattle.syntax.specs.Parsing.{within, whole, lowest_of, depth, depths};
ghost use Rattle.tokens.specs.Words.{Word, words};
ghost use Rattle.syntax.specs.Views.{Gives, view, view_all};

use crate::fault::Fault;
use crate::operators::{EXTREME, NOT};
use crate::source::{Source, span};
use tokens::token::Token;
use trees::position::Span;
use trees::tree::{Binary, Expr, ExprKind, Name, Unary};

/// How many parts may stand within one another.
pub const MOST_DEPTH: u32 = 1000;

/// An expression that was read, and how many parts of it stand within one another.
#[derive(Drop)]
pub struct Part {
    pub expr: Box<Expr>,
    pub depth: u32,
}

/// A tree around parts of a depth, if not too many stand within one another.
pub fn within(source: &Source<'_>, at: Span, expr: Expr, inside: u32) -> Result<Part, Fault>
    requires inside { depth (view expr.kind) ≡ inside + 1 }
    ensures gives { Gives (λ p. view p.expr.value.kind) result (within (view expr.kind)) }
    ensures depth { IfOk result (λ p. p.depth ≡ depth (view p.expr.value.kind)) }
{
    if inside >= MOST_DEPTH {
        return Err(Fault::Deep(at));
    }
    let expr = Box::new(source.heap, expr)?;
    Ok(Part {
        expr,
        depth: inside + 1,
    })
}

/// The same, and the tokens behind it.
pub fn whole<'a>(
    source: &Source<'_>,
    at: Span,
    expr: Expr,
    inside: u32,
    behind: &'a [Token],
) -> Result<(Part, &'a [Token]), Fault>
    requires inside { depth (view expr.kind) ≡ inside + 1 }
    ensures gives { Gives (λ r. (view r.0.expr.value.kind, words source.now.text.now r.1.now)) result (whole (view expr.kind) (words source.now.text.now behind.now)) }
    ensures depth { IfOk result (λ r. r.0.depth ≡ depth (view r.0.expr.value.kind)) }
    ensures behind { IfOk result (λ r. r.1.now ≡ behind.now) }
{
    let part = within(source, at, expr, inside)?;
    Ok((part, behind))
}

/// An operator with what stands left and right of it; `behind` is what follows.
pub fn joined(
    source: &Source<'_>,
    binary: Binary,
    left: Part,
    right: Part,
    behind: &[Token],
) -> Result<Part, Fault>
    requires left { left.depth ≡ depth (view left.expr.value.kind) }
    requires right { right.depth ≡ depth (view right.expr.value.kind) }
    ensures gives { Gives (λ p. view p.expr.value.kind) result (within (joined binary (view left.expr.value.kind) (view right.expr.value.kind))) }
    ensures depth { IfOk result (λ p. p.depth ≡ depth (view p.expr.value.kind)) }
{
    let inside = left.depth.max(right.depth);
    let place = left.expr.span.to(right.expr.span);
    let kind = ExprKind::Binary(binary, left.expr, right.expr);
    within(
        source,
        span(source, behind),
        Expr { kind, span: place },
        inside,
    )
}

// A set that lists places.
fn set(all: Vec<Expr>) -> ExprKind
    ensures { view result ≡ listed (view_all all.items) }
{
    ExprKind::Listed(all)
}

// A predicate with its arguments.
fn called(name: Name, all: Vec<Expr>) -> ExprKind
    ensures { view result ≡ call (string_bytes name.text) (view_all all.items) }
{
    ExprKind::Call(name, all)
}

/// A predicate without arguments, and the tokens behind it.
pub fn called_alone<'a>(
    source: &Source<'_>,
    name: Name,
    span: Span,
    behind: &'a [Token],
) -> Result<(Part, &'a [Token]), Fault>
    ensures gives { Gives {Y = Plain × List Word} (λ r. (view r.0.expr.value.kind, words source.now.text.now r.1.now)) result (Ok (call (string_bytes name.text) none, words source.now.text.now behind.now)) }
    ensures depth { IfOk result (λ r. r.0.depth ≡ depth (view r.0.expr.value.kind)) }
    ensures behind { IfOk result (λ r. r.1.now ≡ behind.now) }
{
    leaf(source, span, called(name, Vec::new(source.heap)), behind)
}

/// Expressions that were read, how many parts of one stand within one another, and where the sign behind them stands.
#[derive(Drop)]
pub struct Listing {
    pub all: Vec<Expr>,
    pub depth: u32,
    pub close: Span,
}

/// A set that lists places, from the sign at `at` on, and the tokens behind it.
pub fn set_of<'a>(
    source: &Source<'_>,
    at: Span,
    list: Listing,
    behind: &'a [Token],
) -> Result<(Part, &'a [Token]), Fault>
    requires deep { list.depth ≡ depths (view_all list.all.items) }
    ensures gives { Gives (λ r. (view r.0.expr.value.kind, words source.now.text.now r.1.now)) result (whole (listed (view_all list.all.items)) (words source.now.text.now behind.now)) }
    ensures depth { IfOk result (λ r. r.0.depth ≡ depth (view r.0.expr.value.kind)) }
    ensures behind { IfOk result (λ r. r.1.now ≡ behind.now) }
{
    let span = at.to(list.close);
    let kind = set(list.all);
    whole(source, at, Expr { kind, span }, list.depth, behind)
}

/// A predicate with these arguments, and the tokens behind it.
pub fn call_of<'a>(
    source: &Source<'_>,
    name: Name,
    list: Listing,
    behind: &'a [Token],
) -> Result<(Part, &'a [Token]), Fault>
    requires deep { list.depth ≡ depths (view_all list.all.items) }
    ensures gives { Gives (λ r. (view r.0.expr.value.kind, words source.now.text.now r.1.now)) result (whole (call (string_bytes name.text) (view_all list.all.items)) (words source.now.text.now behind.now)) }
    ensures depth { IfOk result (λ r. r.0.depth ≡ depth (view r.0.expr.value.kind)) }
    ensures behind { IfOk result (λ r. r.1.now ≡ behind.now) }
{
    let at = name.span;
    let span = at.to(list.close);
    let kind = called(name, list.all);
    whole(source, at, Expr { kind, span }, list.depth, behind)
}

/// An expression without parts, and the tokens behind it.
pub fn leaf<'a>(
    source: &Source<'_>,
    span: Span,
    kind: ExprKind,
    behind: &'a [Token],
) -> Result<(Part, &'a [Token]), Fault>
    requires { depth (view kind) ≡ 1 }
    ensures gives { Gives {Y = Plain × List Word} (λ r. (view r.0.expr.value.kind, words source.now.text.now r.1.now)) result (Ok (view kind, words source.now.text.now behind.now)) }
    ensures span { IfOk result (λ r. r.0.expr.value.span ≡ span) }
    ensures depth { IfOk result (λ r. r.0.depth ≡ depth (view r.0.expr.value.kind)) }
    ensures behind { IfOk result (λ r. r.1.now ≡ behind.now) }
{
    let expr = Box::new(source.heap, Expr { kind, span })?;
    Ok((Part { expr, depth: 1 }, behind))
}

/// How tight the operand of a sign or word before it has to bind.
pub fn lowest(unary: Unary) -> u8
    ensures { result ≡ lowest_of unary }
{
    match unary {
        Unary::Not => NOT + 1,
        _ => EXTREME + 1,
    }
}
