// A choice of the file's helpers in words: by their numbers, which people count from 1 on, and by their names.
ghost use Rattle.std.specs.Prelude.{◌≡◌, Some, IfOk, length, map, string_bytes};
ghost use Rattle.strengthen.specs.Listed.{Below};
ghost use Rattle.rule_report.specs.Choices.{behind_name, behind_number, called, choice_words, large_words, names_at, numbers_of};

use crate::kept::{Why, moment_words};
use kept_check::answer::TooLarge;
use std::alloc::{AllocError, Global};
use std::fmt;

// What stands behind a number, where so many more follow.
fn behind_number(more: usize) -> &'static str
    ensures { result.now ≡ behind_number more }
{
    if more == 0 {
        ""
    } else if more == 1 {
        " and "
    } else {
        ", "
    }
}

// What stands behind a name.
fn behind_name(more: usize) -> &'static str
    ensures { result.now ≡ behind_name more }
{
    if more == 0 { "" } else { ", " }
}

// The numbers of a choice of so many.
fn numbers(alloc: Global, choice: &[usize], many: usize) -> Result<String, AllocError>
    requires { Below many choice.now }
    ensures { IfOk result (λ words. string_bytes words ≡ numbers_of choice.now) }
{
    let [i, rest @ ..] = choice else {
        return Ok(String::new(alloc));
    };
    let number = *i + 1;
    let behind = behind_number(rest.len());
    let others = numbers(alloc, rest, many)?;
    format!(in alloc; "{number}{behind}{others}")
}

// Those of the names that are chosen.
fn names_at(alloc: Global, names: &[&str], choice: &[usize]) -> Result<String, AllocError>
    requires { Below (length names.now) choice.now }
    ensures { IfOk result (λ words. string_bytes words ≡ names_at (map (λ n. n.now) names.now) choice.now) }
{
    let [i, rest @ ..] = choice else {
        return Ok(String::new(alloc));
    };
    let name = names[*i];
    let behind = behind_name(rest.len());
    let others = names_at(alloc, names, rest)?;
    format!(in alloc; "{name}{behind}{others}")
}

/// The names that are chosen, behind the numbers, where there are any.
pub fn called(alloc: Global, names: &[&str], choice: &[usize]) -> Result<String, AllocError>
    requires { Below (length names.now) choice.now }
    ensures { IfOk result (λ words. string_bytes words ≡ called (map (λ n. n.now) names.now) choice.now) }
{
    if choice.is_empty() {
        return Ok(String::new(alloc));
    }
    let names = names_at(alloc, names, choice)?;
    format!(in alloc; ": {names}")
}

/// The choice of so many; without numbers it is the claim alone.
pub fn choice_words(alloc: Global, choice: &[usize], many: usize) -> Result<String, AllocError>
    requires { Below many choice.now }
    ensures { IfOk result (λ words. string_bytes words ≡ choice_words choice.now) }
{
    if choice.is_empty() {
        return String::from_str(alloc, "alone");
    }
    let numbers = numbers(alloc, choice, many)?;
    format!(in alloc; "with the help of {numbers}")
}

/// Which part of a claim is too large, when, and how large it is.
#[derive(Clone, Copy)]
pub struct LargePart(pub TooLarge);

impl fmt::Display for LargePart {
    ghost output = { λ part. Some (large_words part.0) };

    fn fmt<W: fmt::Write>(&self, f: &mut fmt::Formatter<W>) -> fmt::Result {
        let part = self.0.part;
        let moment = moment_words(self.0.moment);
        let why = Why(self.0.why);
        write!(f, "part {part}, {moment}: {why}")
    }
}
