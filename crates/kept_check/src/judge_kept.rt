// Whether a formula is kept by the steps of a rule, for rows of every length.
ghost use Rattle.std.specs.Prelude.{◌≡◌, ◌+◌, ◌^◌, ◌<◌, IfOk, length, map};
ghost use Rattle.kept_check.specs.Found.{LargeIn, OfParts};
ghost use Rattle.kept_check.specs.Parts.{NamesOk, parts};
ghost use Rattle.kept_check.specs.Told.{OfClaim, Told};

use crate::answer::{Answer, Breach, TooLarge};
use crate::found::{Found, earlier};
use crate::part::{Asked, judge_part};
use crate::parts::put_parts;
use formulas::formula::Formula;
use simulate::row::step;
use std::alloc::{AllocError, Global};

// What is found of these parts, the first of which has this number.
fn judge_parts(
    alloc: Global,
    asked: Asked<'_, '_>,
    parts: &[&Formula],
    number: usize,
) -> Result<Found, AllocError>
    requires few { number + length parts.now < 2 ^ 64 }
    requires names { NamesOk asked.keeping.now.rule.now.bits (map (λ d. d.now) parts.now) }
    ensures { IfOk result (OfParts asked.entry.keeping.now asked.entry.memory (map (λ d. d.now) parts.now) number) }
{
    let [part, rest @ ..] = parts else {
        return Ok(Found::Nothing);
    };
    let first = judge_part(alloc, asked, part, number)?;
    let others = judge_parts(alloc, asked, rest, number + 1)?;
    Ok(earlier(first, others))
}

// What is found of the claim by its parts, and how many these are.
fn by_parts(alloc: Global, asked: Asked<'_, '_>) -> Result<(Found, usize), AllocError>
    ensures { IfOk result (λ p. OfParts asked.entry.keeping.now asked.entry.memory (parts asked.entry.keeping.now.claim.value) 1 p.0 × (p.1 ≡ length (parts asked.entry.keeping.now.claim.value))) }
{
    let mut parts = Vec::new(alloc);
    put_parts(&mut parts, &asked.keeping.claim)?;
    let found = judge_parts(alloc, asked, &parts, 1)?;
    Ok((found, parts.len()))
}

// What is found of the claim as a whole, where one of its parts is too large, so many as there are.
fn of_whole(
    alloc: Global,
    asked: Asked<'_, '_>,
    large: TooLarge,
    count: usize,
) -> Result<Found, AllocError>
    requires part { LargeIn asked.keeping.now asked.memory (parts asked.keeping.now.claim.value) 1 large }
    requires count { count ≡ length (parts asked.keeping.now.claim.value) }
    ensures { IfOk result (OfClaim asked.entry.keeping.now asked.entry.memory) }
{
    if count == 1 {
        return Ok(Found::TooLarge(large));
    }
    match judge_part(alloc, asked, &asked.keeping.claim, 0)? {
        Found::TooLarge(_) => Ok(Found::TooLarge(large)),
        Found::Nothing => Ok(Found::Nothing),
        Found::First(moment, row) => Ok(Found::First(moment, row)),
    }
}

// What is found of the claim: by its parts, and where one of them is too large by the whole.
fn found(alloc: Global, asked: Asked<'_, '_>) -> Result<Found, AllocError>
    ensures { IfOk result (OfClaim asked.entry.keeping.now asked.entry.memory) }
{
    let (found, count) = by_parts(alloc, asked)?;
    match found {
        Found::TooLarge(large) => of_whole(alloc, asked, large, count),
        Found::Nothing => Ok(Found::Nothing),
        Found::First(moment, row) => Ok(Found::First(moment, row)),
    }
}

/// Whether the claim is kept, with at most so many classes in so much memory. It is judged by its parts, of each of which two claims are made, about rows of the start and about rows and the rows after them; where one of these is too large, as a whole. It fails for want of memory alone.
pub fn judge_kept(alloc: Global, asked: Asked<'_, '_>) -> Result<Answer, AllocError>
    ensures { IfOk result (Told asked.entry.keeping.now asked.entry.memory) }
{
    let rule = asked.keeping.rule;
    match found(alloc, asked)? {
        Found::Nothing => Ok(Answer::Kept),
        Found::TooLarge(large) => Ok(Answer::TooLarge(large)),
        Found::First(moment, row) => {
            let after = step(alloc, rule.layout, rule.bits, &rule.table, &row)?;
            Ok(Answer::NotKept(Breach { moment, row, after }))
        }
    }
}
