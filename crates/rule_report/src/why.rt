// Why the choices of the file's helpers that come before an answer do not keep a claim.
ghost use Rattle.std.specs.Prelude.{◌≡◌, All, IfOk, length, map, string_bytes};
ghost use Rattle.std.specs.Option.{option_copied};
ghost use Rattle.strengthen.specs.Listed.{Below};
ghost use Rattle.rule_report.specs.Choices.{end_of};
ghost use Rattle.rule_report.specs.Why.{AreWhys, IsWhy, IsWhyOf, why_words};

use crate::answer::Asked;
use crate::choices::{LargePart, choice_words};
use crate::kept::{breach_history, breach_words};
use kept_check::answer::Answer;
use kept_check::judge_kept::judge_kept;
use kept_check::part;
use rule_check::memory::Memory;
use std::alloc::{AllocError, Global};
use strengthen::answer::Stronger;
use strengthen::before::choices_before;
use strengthen::choice::keeping_with;
use strengthen::listed::Listed;
use strengthen::watch::{Event, Watch};

// What is told of a choice of so many with this answer.
fn told(
    alloc: Global,
    asked: Asked<'_, '_>,
    choice: &[usize],
    many: usize,
    answer: &Answer,
) -> Result<String, AllocError>
    requires { Below many choice.now }
    ensures { IfOk result (λ words. string_bytes words ≡ why_words asked.entry.source.now asked.entry.options.now choice.now answer.now) }
{
    let choice = choice_words(alloc, choice, many)?;
    match answer {
        Answer::Kept => format!(in alloc; "    {choice}: kept, settled for every length\n"),
        Answer::NotKept(breach) => {
            let history = breach_history(alloc, asked, breach)?;
            let words = breach_words(alloc, asked, breach, &history)?;
            format!(in alloc; "    {choice}: {words}")
        }
        Answer::TooLarge(large) => {
            let large = LargePart(*large);
            format!(in alloc; "    {choice}: too large: {large}\n")
        }
    }
}

// Why this choice does not keep the claim.
fn why_of(
    alloc: Global,
    asked: Asked<'_, '_>,
    given: Listed<'_, '_>,
    memory: Memory,
    choice: &[usize],
) -> Result<String, AllocError>
    requires { Below (length given.helpers.now) choice.now }
    ensures { IfOk result (λ words. IsWhyOf asked.entry.source.now asked.entry.options.now given.entry memory choice.now (string_bytes words)) }
{
    let keeping = keeping_with(alloc, given, choice)?;
    let answer = judge_kept(
        alloc,
        part::Asked {
            keeping: &keeping,
            memory,
        },
    )?;
    told(alloc, asked, choice, given.helpers.len(), &answer)
}

// Why each of these choices does not.
fn whys<W: Watch>(
    alloc: Global,
    asked: Asked<'_, '_>,
    given: Listed<'_, '_>,
    memory: Memory,
    choices: &[Vec<usize>],
    watch: &mut W,
) -> Result<String, AllocError>
    requires { All (Below (length given.helpers.now)) (map (λ c. c.items) choices.now) }
    ensures { IfOk result (λ words. AreWhys asked.entry.source.now asked.entry.options.now given.entry memory (map (λ c. c.items) choices.now) (string_bytes words)) }
{
    watch.note(Event::Choices(Some(choices.len() as u64)));
    let mut words = String::new(alloc);
    for choice in choices {
        watch.note(Event::Judged);
        let why = why_of(alloc, asked, given, memory, choice)?;
        words.push_str(why.as_str())?;
        watch.note(Event::Passed);
    }
    Ok(words)
}

// At which choice an answer stands.
fn end_of(answer: &Stronger) -> Option<&[usize]>
    ensures { option_copied result ≡ end_of answer.now }
{
    match answer {
        Stronger::With(choice) => Some(choice.as_slice()),
        Stronger::NoneAmong => None,
        Stronger::TooLarge(large) => Some(large.choice.as_slice()),
    }
}

/// Why each choice that comes before the answer does not keep the claim, where that is wanted. Fails for memory.
pub fn why<W: Watch>(
    alloc: Global,
    asked: Asked<'_, '_>,
    given: Listed<'_, '_>,
    memory: Memory,
    answer: &Stronger,
    watch: &mut W,
) -> Result<String, AllocError>
    ensures { IfOk result (λ words. IsWhy asked.entry.source.now asked.entry.options.now given.entry memory answer.now (string_bytes words)) }
{
    if !asked.options.why {
        return Ok(String::new(alloc));
    }
    let choices = choices_before(alloc, given.helpers.len(), end_of(answer))?;
    whys(alloc, asked, given, memory, &choices, watch)
}
