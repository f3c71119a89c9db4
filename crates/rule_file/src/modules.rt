// Reads the modules of a given row.
ghost use Rattle.std.specs.Prelude.{◌≡◌, ◌<◌, ◌++◌, IfOk, IfSome, length};
ghost use Rattle.std.specs.List.{flat_map};
ghost use Rattle.rule_file.specs.Written.{joined_tokens, module_tokens};

use crate::cursor::{expected, signed};
use crate::fault::{Fault, Wanted};
use crate::token::{Kind, Token};
use crate::tree::{Joined, Module};
use std::alloc::Global;

// The bits of a module behind its first.
#[tactic(auto, using(crate::proofs::WrittenLaws::written_more))]
fn joined<'a>(alloc: Global, tokens: &'a [Token]) -> Result<(Vec<Joined>, &'a [Token]), Fault>
    ensures { IfOk result (λ r. flat_map joined_tokens r.0.items ++ r.1.now ≡ tokens.now) }
{
    let mut all = Vec::new(alloc);
    let mut rest = tokens;
    while let Some((plus, name, more)) = signed(rest, Kind::Plus)? {
        all.push(Joined { plus, name })?;
        rest = more;
    }
    Ok((all, rest))
}

// The module of a row that the tokens begin with, if they do.
fn module<'a>(alloc: Global, tokens: &'a [Token]) -> Result<Option<(Module, &'a [Token])>, Fault>
    ensures words { IfOk result (λ o. IfSome o (λ r. module_tokens r.0 ++ r.1.now ≡ tokens.now)) }
    ensures less { IfOk result (λ o. IfSome o (λ r. length r.1.now < length tokens.now)) }
{
    match tokens {
        [word, rest @ ..] => match word.kind {
            Kind::Dot => Ok(Some((Module::Bare(*word), rest))),
            Kind::Name => {
                let (more, rest) = joined(alloc, rest)?;
                Ok(Some((Module::Bits(*word, more), rest)))
            }
            _ => Ok(None),
        },
        [] => Ok(None),
    }
}

/// The modules of a row: one at least.
#[tactic(auto, using(crate::proofs::WrittenLaws::written_more))]
pub fn modules<'a>(alloc: Global, tokens: &'a [Token]) -> Result<(Vec<Module>, &'a [Token]), Fault>
    ensures { IfOk result (λ r. flat_map module_tokens r.0.items ++ r.1.now ≡ tokens.now) }
{
    let mut all = Vec::new(alloc);
    let mut rest = tokens;
    while let Some((read, more)) = module(alloc, rest)? {
        all.push(read)?;
        rest = more;
    }
    if all.is_empty() {
        return Err(expected(Wanted::Module, tokens));
    }
    Ok((all, rest))
}
