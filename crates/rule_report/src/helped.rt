// With the help of which claims of the file a claim is kept that is not kept by itself.
ghost use Rattle.std.specs.Prelude.{◌≡◌, Some, IfOk, IfSome, length, map, string_bytes};
ghost use Rattle.strengthen.specs.Listed.{Below};
ghost use Rattle.rule_report.specs.Choices.{end_of};
ghost use Rattle.rule_report.specs.Helped.{IsHelped, IsHelpedBy, TellsHelp, any_of, help_words};

use crate::answer::Asked;
use crate::choices::{LargePart, called, choice_words};
use crate::progress::Progress;
use crate::stop::Stop;
use crate::why::why;
use kept_check::answer::Answer;
use rule_check::memory::Memory;
use rule_source::helpers::helper_names;
use rule_source::kept::Keep;
use std::alloc::{AllocError, Global};
use std::fmt;
use strengthen::answer::Stronger;
use strengthen::listed::Listed;
use strengthen::strengthen::strengthen;

// Of which choices it is said that none keeps the claim, where there are so many helpers.
#[derive(Clone, Copy)]
struct AnyOf(usize);

impl fmt::Display for AnyOf {
    ghost output = { λ any. Some (any_of any.0) };

    fn fmt<W: fmt::Write>(&self, f: &mut fmt::Formatter<W>) -> fmt::Result {
        let n = self.0;
        if n == 1 {
            write!(f, "its helper")
        } else if 8 < n {
            write!(f, "at most eight of its {n} helpers")
        } else {
            write!(f, "its {n} helpers")
        }
    }
}

// What is told of an answer, by the names of the helpers.
fn told(alloc: Global, names: &[&str], answer: &Stronger) -> Result<String, AllocError>
    requires { IfSome (end_of answer.now) (Below (length names.now)) }
    ensures { IfOk result (λ words. string_bytes words ≡ help_words (map (λ n. n.now) names.now) answer.now) }
{
    let many = names.len();
    match answer {
        Stronger::With(choice) => {
            let numbers = choice_words(alloc, choice, many)?;
            let names = called(alloc, names, choice)?;
            format!(in alloc; "    kept {numbers}{names}\n")
        }
        Stronger::NoneAmong => {
            let any = AnyOf(many);
            format!(in alloc; "    not kept with any choice of {any}\n")
        }
        Stronger::TooLarge(large) => {
            let numbers = choice_words(alloc, &large.choice, many)?;
            let part = LargePart(large.large);
            format!(in alloc; "    {numbers} too large: {part}\n")
        }
    }
}

// With which of the file's helpers the claim is kept.
fn by_helpers<P: Progress>(
    alloc: Global,
    asked: Asked<'_, '_>,
    keep: &Keep<'_>,
    memory: Memory,
    watch: &mut P,
) -> Result<String, Stop>
    ensures { IfOk result (λ words. IsHelped asked.entry.source.now asked.entry.options.now keep.now memory (string_bytes words)) }
{
    let names = helper_names(alloc, asked.source)?;
    let given = Listed::new(alloc, &keep.keeping, &asked.source.helpers)?;
    watch.begin(keep.name);
    let answer = strengthen(alloc, given, memory, watch)?;
    let why = why(alloc, asked, given, memory, &answer, watch)?;
    let told = told(alloc, &names, &answer)?;
    Ok(format!(in alloc; "{why}{told}")?)
}

// The same, where there are any.
fn by_any<P: Progress>(
    alloc: Global,
    asked: Asked<'_, '_>,
    keep: &Keep<'_>,
    memory: Memory,
    watch: &mut P,
) -> Result<String, Stop>
    ensures { IfOk result (λ words. IsHelpedBy asked.entry.source.now asked.entry.options.now keep.now memory (string_bytes words)) }
{
    if asked.source.helpers.is_empty() {
        return Ok(String::new(alloc));
    }
    by_helpers(alloc, asked, keep, memory, watch)
}

/// With the help of which claims of the file it is kept, where by itself it is not. Fails for memory.
pub fn help<P: Progress>(
    alloc: Global,
    asked: Asked<'_, '_>,
    keep: &Keep<'_>,
    memory: Memory,
    answer: &Answer,
    watch: &mut P,
) -> Result<String, Stop>
    ensures { IfOk result (λ words. TellsHelp asked.entry.source.now asked.entry.options.now keep.now memory answer.now (string_bytes words)) }
{
    match answer {
        Answer::Kept => Ok(String::new(alloc)),
        Answer::NotKept(_) | Answer::TooLarge(_) => by_any(alloc, asked, keep, memory, watch),
    }
}
