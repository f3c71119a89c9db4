// What is answered of a rule file and a name that come as bytes, in memory that comes as numbers.
ghost use Rattle.export.specs.KeptVerdict.{AreAsLong, OutcomeOf};

use kept_source::in_file::InFile;
use kept_source::judge_named::judge_named;
use rule_check::memory::Memory;
use std::alloc::Global;
use std::str::from_utf8;

/// What is answered of the file, or why nothing is: there is not enough memory, or fewer work words are allowed than are needed at least.
#[derive(Debug, Drop)]
pub enum KeptOutcome {
    InFile(InFile),
    NoMemory,
    TooFewWords,
}

/// What is answered of a text and a name, with at most so many classes in so many words. Bytes that are no text are no rule file, and no claim's name.
pub fn kept_outcome(alloc: Global, text: &[u8], name: &[u8], most: u32, words: u64) -> KeptOutcome
    ensures says { OutcomeOf text.now name.now most words result }
    ensures long { AreAsLong result }
{
    let Some(memory) = Memory::new(most, words) else {
        return KeptOutcome::TooFewWords;
    };
    let Ok(text) = from_utf8(text) else {
        return KeptOutcome::InFile(InFile::NotRead);
    };
    let Ok(name) = from_utf8(name) else {
        return KeptOutcome::InFile(InFile::NoSuchClaim);
    };
    match judge_named(alloc, text, name, memory) {
        Ok(answer) => KeptOutcome::InFile(answer),
        Err(_) => KeptOutcome::NoMemory,
    }
}
