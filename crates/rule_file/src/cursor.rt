// What the tokens that are left begin with: a token of a kind, a run of them, a sign with a name. Each function gives what it read with the tokens
// behind it, and what it read, written down again, and those behind it are the tokens that it was given. So no token is left out.
ghost use Rattle.std.specs.Prelude.{◌≡◌, ◌∷◌, ◌++◌, All, IfOk, IfSome};

use crate::fault::{Fault, Wanted};
use crate::token::{Kind, Token};
use std::alloc::Global;

/// That something else is expected where the tokens begin.
pub fn expected(wanted: Wanted, tokens: &[Token]) -> Fault {
    Fault::Expected(wanted, tokens.first().copied())
}

/// The first token, if it is of that kind.
pub fn front<'a>(tokens: &'a [Token], kind: Kind) -> Option<(Token, &'a [Token])>
    ensures words { IfSome result (λ r. r.0 ∷ r.1.now ≡ tokens.now) }
    ensures kind { IfSome result (λ r. r.0.kind ≡ kind) }
{
    match tokens {
        [token, rest @ ..] if token.kind == kind => Some((*token, rest)),
        _ => None,
    }
}

/// The first token, which has to be of that kind.
pub fn token<'a>(
    tokens: &'a [Token],
    kind: Kind,
    wanted: Wanted,
) -> Result<(Token, &'a [Token]), Fault>
    ensures words { IfOk result (λ r. r.0 ∷ r.1.now ≡ tokens.now) }
    ensures kind { IfOk result (λ r. r.0.kind ≡ kind) }
{
    match front(tokens, kind) {
        Some(read) => Ok(read),
        None => Err(expected(wanted, tokens)),
    }
}

/// The tokens of one kind at the front.
#[tactic(auto, using(crate::proofs::WrittenLaws::token_more))]
pub fn run<'a>(
    alloc: Global,
    tokens: &'a [Token],
    kind: Kind,
) -> Result<(Vec<Token>, &'a [Token]), Fault>
    ensures words { IfOk result (λ r. r.0.items ++ r.1.now ≡ tokens.now) }
    ensures kind { IfOk result (λ r. All (λ t. t.kind ≡ kind) r.0.items) }
{
    let mut all = Vec::new(alloc);
    let mut rest = tokens;
    while let Some((token, more)) = front(rest, kind) {
        all.push(token)?;
        rest = more;
    }
    Ok((all, rest))
}

/// A sign and the name behind it, as `!tray`.
pub fn signed<'a>(
    tokens: &'a [Token],
    sign: Kind,
) -> Result<Option<(Token, Token, &'a [Token])>, Fault>
    ensures { IfOk result (λ o. IfSome o (λ r. r.0 ∷ r.1 ∷ r.2.now ≡ tokens.now)) }
{
    let Some((sign, rest)) = front(tokens, sign) else {
        return Ok(None);
    };
    let (name, rest) = token(rest, Kind::Name, Wanted::BitName)?;
    Ok(Some((sign, name, rest)))
}
