// With which of a rule file's list of helpers a claim is kept, where file and name come as bytes and the memory as numbers.
ghost use Rattle.export.specs.StrongerVerdict.{OutcomeOf};

use kept_source::helped::Helped;
use kept_source::strengthen_named::strengthen_named;
use rule_check::memory::Memory;
use std::alloc::Global;
use std::str::from_utf8;

/// What is answered of the file, or why nothing is: there is not enough memory, or fewer work words are allowed than are needed at least.
#[derive(Debug, Drop)]
pub enum StrongerOutcome {
    InFile(Helped),
    NoMemory,
    TooFewWords,
}

/// What is answered of a text and a name, with at most so many classes in so many words. Bytes that are no text are no rule file, and no claim's name.
pub fn stronger_outcome(
    alloc: Global,
    text: &[u8],
    name: &[u8],
    most: u32,
    words: u64,
) -> StrongerOutcome
    ensures { OutcomeOf text.now name.now most words result }
{
    let Some(memory) = Memory::new(most, words) else {
        return StrongerOutcome::TooFewWords;
    };
    let Ok(text) = from_utf8(text) else {
        return StrongerOutcome::InFile(Helped::NotRead);
    };
    let Ok(name) = from_utf8(name) else {
        return StrongerOutcome::InFile(Helped::NoSuchClaim);
    };
    match strengthen_named(alloc, text, name, memory) {
        Ok(answer) => StrongerOutcome::InFile(answer),
        Err(_) => StrongerOutcome::NoMemory,
    }
}
