// Reads patterns: three parts with bars between them.
ghost use Rattle.std.specs.Prelude.{◌≡◌, ◌<◌, ◌++◌, All, IfOk, IfSome, length};
ghost use Rattle.std.specs.List.{flat_map};
ghost use Rattle.rule_file.specs.Kinds.{IsPattern, IsTerm};
ghost use Rattle.rule_file.specs.Written.{term_tokens, pattern_tokens};

use crate::cursor::{expected, token};
use crate::fault::{Fault, Wanted};
use crate::token::{Kind, Token};
use crate::tree::{Pattern, Term};
use std::alloc::Global;

// The word of a pattern that the tokens begin with, if they do.
fn term<'a>(tokens: &'a [Token]) -> Result<Option<(Term, &'a [Token])>, Fault>
    ensures words { IfOk result (λ o. IfSome o (λ r. term_tokens r.0 ++ r.1.now ≡ tokens.now)) }
    ensures less { IfOk result (λ o. IfSome o (λ r. length r.1.now < length tokens.now)) }
    ensures kind { IfOk result (λ o. IfSome o (λ r. IsTerm r.0)) }
{
    match tokens {
        [word, rest @ ..] => match word.kind {
            Kind::Star => Ok(Some((Term::Any(*word), rest))),
            Kind::Module => Ok(Some((Term::Module(*word), rest))),
            Kind::Missing => Ok(Some((Term::Missing(*word), rest))),
            Kind::Name => Ok(Some((Term::Set(*word), rest))),
            Kind::Not => {
                let (name, rest) = token(rest, Kind::Name, Wanted::BitName)?;
                Ok(Some((Term::Clear(*word, name), rest)))
            }
            _ => Ok(None),
        },
        [] => Ok(None),
    }
}

// A part of a pattern: one word at least.
#[tactic(auto, using(crate::proofs::WrittenLaws::written_more, crate::proofs::KindsLaws::terms_more))]
fn part<'a>(alloc: Global, tokens: &'a [Token]) -> Result<(Vec<Term>, &'a [Token]), Fault>
    ensures words { IfOk result (λ r. flat_map term_tokens r.0.items ++ r.1.now ≡ tokens.now) }
    ensures terms { IfOk result (λ r. All IsTerm r.0.items) }
{
    let mut all = Vec::new(alloc);
    let mut rest = tokens;
    while let Some((read, more)) = term(rest)? {
        all.push(read)?;
        rest = more;
    }
    if all.is_empty() {
        return Err(expected(Wanted::Term, tokens));
    }
    Ok((all, rest))
}

/// A pattern: three parts, and the bars between them.
pub fn pattern<'a>(alloc: Global, tokens: &'a [Token]) -> Result<(Pattern, &'a [Token]), Fault>
    ensures words { IfOk result (λ r. pattern_tokens r.0 ++ r.1.now ≡ tokens.now) }
    ensures pattern { IfOk result (λ r. IsPattern r.0) }
{
    let (left, rest) = part(alloc, tokens)?;
    let (first, rest) = token(rest, Kind::Bar, Wanted::TermOrBar)?;
    let (own, rest) = part(alloc, rest)?;
    let (second, rest) = token(rest, Kind::Bar, Wanted::TermOrBar)?;
    let (right, rest) = part(alloc, rest)?;
    Ok((
        Pattern {
            left,
            first,
            own,
            second,
            right,
        },
        rest,
    ))
}
