// Reads what a line of the table does: the changes of bits, and whether the module moves.
ghost use Rattle.std.specs.Prelude.{◌≡◌, ◌∷◌, ◌++◌, IfOk, IfSome};
ghost use Rattle.std.specs.List.{flat_map};
ghost use Rattle.rule_file.specs.Written.{source_tokens, change_tokens, motion_token, effects_tokens};

use crate::cursor::{expected, front, token};
use crate::fault::{Fault, Wanted};
use crate::token::{Kind, Token};
use crate::tree::{Change, Effects, Motion, Source};
use std::alloc::Global;

// A point and the name behind it.
fn dotted<'a>(tokens: &'a [Token]) -> Result<(Token, Token, &'a [Token]), Fault>
    ensures { IfOk result (λ r. r.0 ∷ r.1 ∷ r.2.now ≡ tokens.now) }
{
    let (dot, rest) = token(tokens, Kind::Dot, Wanted::Dot)?;
    let (name, rest) = token(rest, Kind::Name, Wanted::BitName)?;
    Ok((dot, name, rest))
}

// What stands behind `=`.
fn source<'a>(tokens: &'a [Token]) -> Result<(Source, &'a [Token]), Fault>
    ensures { IfOk result (λ r. source_tokens r.0 ++ r.1.now ≡ tokens.now) }
{
    match tokens {
        [word, rest @ ..] => match word.kind {
            Kind::Name => Ok((Source::Own(*word), rest)),
            Kind::Left => {
                let (dot, name, rest) = dotted(rest)?;
                Ok((Source::Left(*word, dot, name), rest))
            }
            Kind::Right => {
                let (dot, name, rest) = dotted(rest)?;
                Ok((Source::Right(*word, dot, name), rest))
            }
            _ => Err(expected(Wanted::Source, tokens)),
        },
        [] => Err(expected(Wanted::Source, tokens)),
    }
}

// A name, and what it takes where `=` stands behind it.
fn named_change<'a>(name: Token, tokens: &'a [Token]) -> Result<(Change, &'a [Token]), Fault>
    ensures { IfOk result (λ r. change_tokens r.0 ++ r.1.now ≡ name ∷ tokens.now) }
{
    match front(tokens, Kind::Equal) {
        Some((equal, rest)) => {
            let (source, rest) = source(rest)?;
            Ok((Change::AsWas(name, equal, source), rest))
        }
        None => Ok((Change::Set(name), tokens)),
    }
}

// The change of a bit that the tokens begin with, if they do.
fn change<'a>(tokens: &'a [Token]) -> Result<Option<(Change, &'a [Token])>, Fault>
    ensures words { IfOk result (λ o. IfSome o (λ r. change_tokens r.0 ++ r.1.now ≡ tokens.now)) }
{
    match tokens {
        [word, rest @ ..] => match word.kind {
            Kind::Name => Ok(Some(named_change(*word, rest)?)),
            Kind::Not => {
                let (name, rest) = token(rest, Kind::Name, Wanted::BitName)?;
                Ok(Some((Change::Clear(*word, name), rest)))
            }
            _ => Ok(None),
        },
        [] => Ok(None),
    }
}

#[tactic(auto, using(crate::proofs::WrittenLaws::written_more))]
fn changes<'a>(alloc: Global, tokens: &'a [Token]) -> Result<(Vec<Change>, &'a [Token]), Fault>
    ensures { IfOk result (λ r. flat_map change_tokens r.0.items ++ r.1.now ≡ tokens.now) }
{
    let mut all = Vec::new(alloc);
    let mut rest = tokens;
    while let Some((read, more)) = change(rest)? {
        all.push(read)?;
        rest = more;
    }
    Ok((all, rest))
}

fn motion<'a>(tokens: &'a [Token]) -> Result<(Motion, &'a [Token]), Fault>
    ensures { IfOk result (λ r. motion_token r.0 ∷ r.1.now ≡ tokens.now) }
{
    match tokens {
        [word, rest @ ..] => match word.kind {
            Kind::Moves => Ok((Motion::Moves(*word), rest)),
            Kind::Waits => Ok((Motion::Waits(*word), rest)),
            _ => Err(expected(Wanted::Motion, tokens)),
        },
        [] => Err(expected(Wanted::Motion, tokens)),
    }
}

/// What a line of the table does: changes, its one word `moves` or `waits`, and further changes.
pub fn effects<'a>(alloc: Global, tokens: &'a [Token]) -> Result<(Effects, &'a [Token]), Fault>
    ensures { IfOk result (λ r. effects_tokens r.0 ++ r.1.now ≡ tokens.now) }
{
    let (before, rest) = changes(alloc, tokens)?;
    let (motion, rest) = motion(rest)?;
    let (after, rest) = changes(alloc, rest)?;
    Ok((
        Effects {
            before,
            motion,
            after,
        },
        rest,
    ))
}
