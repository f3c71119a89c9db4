// What is said of the number of a set's places: that it is a multiple of a number, and another besides.
ghost use Rattle.std.specs.Prelude.{◌≡◌, ℕ, ◌<◌, length, IfOk};
ghost use Rattle.syntax.specs.Plain.{counted};
ghost use Rattle.syntax.specs.Parsing.{tally_at, whole, depth};
ghost use Rattle.tokens.specs.Words.{words};
ghost use Rattle.syntax.specs.Views.{Gives, view};

use crate::fault::{Fault, Wanted};
use crate::part::{Part, whole};
use crate::source::{Source, behind_mod, number_at, token};
use tokens::kind::Kind;
use tokens::token::Token;
use trees::position::Span;
use trees::tree::{Expr, ExprKind, Spanned};

/// Of which number it is a multiple, and what besides.
#[derive(Drop)]
pub struct Tally {
    pub modulus: Spanned<u32>,
    pub rest: Spanned<u32>,
}

/// `mod m = r`, which stands behind the set.
pub fn tally_at<'a>(source: &Source<'_>, tokens: &'a [Token]) -> Result<(Tally, &'a [Token]), Fault>
    ensures gives { Gives (λ r. ((r.0.modulus.kind, r.0.rest.kind), words source.now.text.now r.1.now)) result (tally_at (words source.now.text.now tokens.now)) }
    ensures less { IfOk result (λ r. length r.1.now < length tokens.now) }
{
    let behind = behind_mod(source, tokens)?;
    let (modulus, behind) = number_at(source, behind)?;
    let (_, behind) = token(source, behind, Kind::Equal, Wanted::Token(Kind::Equal))?;
    let (rest, behind) = number_at(source, behind)?;
    Ok((Tally { modulus, rest }, behind))
}

/// A set, from the sign at `at` on, with what is said of the number of its places, and the tokens behind it.
pub fn counted<'a>(
    source: &Source<'_>,
    at: Span,
    set: Part,
    tally: Tally,
    behind: &'a [Token],
) -> Result<(Part, &'a [Token]), Fault>
    requires deep { set.depth ≡ depth (view set.expr.value.kind) }
    ensures gives { Gives (λ r. (view r.0.expr.value.kind, words source.now.text.now r.1.now)) result (whole (counted (view set.expr.value.kind) tally.modulus.kind tally.rest.kind) (words source.now.text.now behind.now)) }
    ensures depth { IfOk result (λ r. r.0.depth ≡ depth (view r.0.expr.value.kind)) }
    ensures behind { IfOk result (λ r. r.1.now ≡ behind.now) }
{
    let span = at.to(tally.rest.span);
    let kind = ExprKind::Count(set.expr, tally.modulus, tally.rest);
    whole(source, at, Expr { kind, span }, set.depth, behind)
}
