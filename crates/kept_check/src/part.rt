// One part of a claim, judged for rows of every length: at the start, and in a step.
ghost use Rattle.std.specs.Prelude.{suc, IfOk, IsTrue, MatchResult};
ghost use Rattle.claims.specs.Encoded.{Refused};
ghost use Rattle.keeping.specs.Breaches.{names_ok};
ghost use Rattle.kept_claims.specs.Breach.{claim_of};
ghost use Rattle.kept_check.specs.Found.{AtMoment, IsAnswered, OfPart};

use crate::answer::{Large, TooLarge};
use crate::found::{Found, earlier};
use claims::encode::Refusal;
use formulas::formula::Formula;
use keeping::moment::Moment;
use kept_claims::breach::claim_of;
use kept_claims::kept::Keeping;
use rule_check::first_row::judge_told;
use rule_check::memory::Memory;
use rule_check::verdict::Verdict;
use std::alloc::{AllocError, Global};

/// What is judged, and in which memory.
#[derive(Clone, Copy)]
pub struct Asked<'k, 'r> {
    pub keeping: &'k Keeping<'r>,
    pub memory: Memory,
}

// What is answered of the rows that show at that moment that the part is not kept.
fn verdict_of(
    alloc: Global,
    asked: Asked<'_, '_>,
    part: &Formula,
    moment: Moment,
) -> Result<Verdict, Refusal>
    requires { IsTrue (names_ok asked.keeping.now.rule.now.bits part.now) }
    ensures { MatchResult result (IsAnswered asked.entry.keeping.now asked.entry.memory part.now moment) (Refused (suc asked.entry.keeping.now.rule.now.bits) (claim_of asked.entry.keeping.now part.now moment)) }
{
    let keeping = asked.keeping;
    let claim = claim_of(alloc, keeping, part, moment)?;
    let verdict = judge_told(alloc, keeping.rule.bits, &claim, asked.memory)?;
    Ok(verdict)
}

/// What is found at that moment of the part with this number.
pub fn at_moment(
    alloc: Global,
    asked: Asked<'_, '_>,
    part: &Formula,
    number: usize,
    moment: Moment,
) -> Result<Found, AllocError>
    requires { IsTrue (names_ok asked.keeping.now.rule.now.bits part.now) }
    ensures { IfOk result (AtMoment asked.entry.keeping.now asked.entry.memory part.now number moment) }
{
    let why = match verdict_of(alloc, asked, part, moment) {
        Ok(Verdict::Never) => return Ok(Found::Nothing),
        Ok(Verdict::First(row)) => return Ok(Found::First(moment, row)),
        Ok(Verdict::TooLarge(n)) => Large::Classes(n),
        Err(Refusal::TooManyBytes(n)) => Large::Bytes(n),
        Err(Refusal::TooManySets(n)) => Large::Sets(n),
        Err(Refusal::OutOfMemory) => return Err(AllocError),
    };
    Ok(Found::TooLarge(TooLarge {
        part: number,
        moment,
        why,
    }))
}

/// What is found of the part with this number.
pub fn judge_part(
    alloc: Global,
    asked: Asked<'_, '_>,
    part: &Formula,
    number: usize,
) -> Result<Found, AllocError>
    requires { IsTrue (names_ok asked.keeping.now.rule.now.bits part.now) }
    ensures { IfOk result (OfPart asked.entry.keeping.now asked.entry.memory part.now number) }
{
    let start = at_moment(alloc, asked, part, number, Moment::Start)?;
    let step = at_moment(alloc, asked, part, number, Moment::Step)?;
    Ok(earlier(start, step))
}
