// A claim of a rule as a text, and whether `settle` answers of it what is found of the rule.
use crate::answers::{Settled, answer_of, asked_of_settle};
use claim_text::text::text;
use rule_check::first_row::first_row;
use rule_source::source::Source;
use rules::property::claim_of;
use rules::question::Question;

/// What is asked of a rule: the file's name, what is asked, and the question.
#[derive(Clone, Copy)]
pub struct Shown<'s, 't> {
    pub file: &'s str,
    pub what: &'s str,
    pub source: &'s Source<'t>,
    pub question: &'s Question<'s>,
}

/// Tells what both answers are, and the text where texts are wanted.
pub fn show(rt: &HostRuntime, shown: Shown<'_, '_>, texts: bool) -> anyhow::Result<()> {
    let alloc = rt.alloc();
    let owned = shown.source.bits.set_names(alloc)?;
    let mut names = Vec::new(alloc);
    for name in &owned {
        names.push(name.as_str())?;
    }
    let question = shown.question;
    let claim = claim_of(alloc, question.rule, &question.property)?;
    let text = text(alloc, &claim, &names)?;
    let verdict = first_row(alloc, question, u32::MAX)?;
    let ours = answer_of(alloc, question.rule.bits, &verdict)?;
    let file = shown.file;
    let what = shown.what;
    match asked_of_settle(alloc, &text)? {
        Settled::Refused(message) => {
            let message = message.as_str().trim();
            println!(rt; "{file} {what}: {ours}; {message}")?;
        }
        Settled::Answer(theirs, size) => {
            let same = if ours.as_str() == theirs.as_str() {
                "the answers agree"
            } else {
                "THE ANSWERS DIFFER"
            };
            println!(rt; "{file} {what}: {theirs}; {size}; {same}")?;
        }
    }
    if texts {
        println!(rt; "{text}")?;
    }
    Ok(())
}
