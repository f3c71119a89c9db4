// A property of the rows of a rule, and a claim that tells of rows, judged for rows of every length.
ghost use Rattle.std.specs.Prelude.{ℕ, suc, ◌+◌, ◌*◌, ◌-◌, ◌^◌, ◌<◌, ◌≤◌, ◌≡◌, ◌∷◌, IfOk, MatchResult};
ghost use Rattle.claims.specs.Claims.{C};
ghost use Rattle.claims.specs.Rows.{Claim as IsClaimOf, IsClaim};
ghost use Rattle.claims.specs.Encoded.{Refused};
ghost use Rattle.claims.specs.Trees.{said};
ghost use Rattle.workspace.specs.Floor.{RoomIn};
ghost use Rattle.rules.specs.Property.{claim_of};
ghost use Rattle.rule_check.specs.Told.{Found as IsFound, Judged, Told};

use crate::memory::Memory;
use crate::verdict::Verdict;
use claims::encode::{Refusal, encode};
use claims::tree::Claim;
use first_word::first_word::{Found, first_word_in};
use rows::modules::modules;
use rules::property::claim_of;
use rules::question::Question;
use std::alloc::{AllocError, Global};
use workspace::largest::largest_in;

// What is found of a claim about rows of modules of so many bits, with at most n classes.
fn found(alloc: Global, bits: u8, claim: &[u8], n: u32) -> Result<Verdict, AllocError>
    requires few { bits < 32 }
    requires claim { IsClaim claim.now }
    requires fits { RoomIn (2 ^ 64 - 1) claim.now n }
    ensures { IfOk result (λ v. (k : ℕ) (c : C) → IsClaimOf claim.now k c → IsFound bits k c n v) }
{
    match first_word_in(alloc, claim, n)? {
        Found::Nothing => Ok(Verdict::Never),
        Found::First(word) => Ok(Verdict::First(modules(alloc, bits, &word)?)),
        Found::TooLarge => Ok(Verdict::TooLarge(n)),
    }
}

/// What is found of a claim that tells of rows of modules of so many bits: that no row is told of, or the row that it first tells of, or that more classes would have to be told apart than are allowed and than there is memory for. It is refused only where it takes more than 1024 bytes or more than 12 sets, or for want of memory.
pub fn judge_told(
    alloc: Global,
    bits: u8,
    claim: &Claim,
    memory: Memory,
) -> Result<Verdict, Refusal>
    requires { bits < 32 }
    ensures { MatchResult result (Judged memory.words bits (said claim.now) memory.most) (Refused (suc bits) (said claim.now)) }
{
    let bytes = encode(alloc, claim, bits as usize + 1)?;
    let n = largest_in(&bytes, memory.most, memory.words);
    let verdict = found(alloc, bits, &bytes, n)?;
    Ok(verdict)
}

/// The first row that has the property, where shorter rows come first, and of rows of one length those whose first different column is less; or that no row has it, however long; or that more classes would have to be told apart than `most` and than there is memory for. It is refused only where its claim takes more than 1024 bytes or more than 12 sets, or for want of memory.
pub fn first_row(alloc: Global, question: &Question<'_>, most: u32) -> Result<Verdict, Refusal>
    ensures { MatchResult result (Told question.now.rule.now question.now.property most) (Refused (suc question.now.rule.now.bits) (claim_of question.now.rule.now question.now.property)) }
{
    let rule = question.rule;
    let claim = claim_of(alloc, rule, &question.property)?;
    let verdict = judge_told(alloc, rule.bits, &claim, Memory::program(most))?;
    Ok(verdict)
}
