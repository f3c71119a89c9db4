// One question of a rule, judged for rows of every length.
ghost use Rattle.std.specs.Prelude.{◌≡◌, IfOk};
ghost use Rattle.rule_report.specs.Answers.{TrueOf};

use crate::narrow::narrowest;
use crate::options::Options;
use crate::shown_rows::history;
use crate::stop::Stop;
use crate::subject::Subject;
use claims::encode::Refusal;
use diagram::history::History;
use rule_check::first_row::first_row;
use rule_check::verdict::Verdict;
use rule_source::source::Source;
use rules::question::Question;
use std::alloc::Global;
use trees::position::Span;

/// A rule file with its name and the title of its pictures, and how its report is wanted.
#[derive(Clone, Copy)]
pub struct Asked<'s, 't> {
    pub file: &'s str,
    pub title: &'s str,
    pub source: &'s Source<'t>,
    pub options: &'s Options,
}

/// What is found of a question.
#[derive(Drop)]
pub enum Answer {
    // no row has the property
    Never,
    // the first row that has it, with the rows after it
    First(History),
    // more than so many classes are told apart, from this place of the file on, or whatever its lines say
    TooLarge(u32, Option<Span>),
    // the claim needs more sets or bytes than there may be
    Refused(Refusal),
}

/// The answer to a question about the subject, which is true of the file's rule if it is that rule that is asked. Fails for memory.
pub fn answer_to(
    alloc: Global,
    asked: Asked<'_, '_>,
    subject: &Subject<'_>,
    question: &Question<'_>,
) -> Result<Answer, Stop>
    ensures { question.now.rule.now ≡ asked.entry.source.now.rule → IfOk result (TrueOf asked.entry.source.now asked.entry.options.now subject.now question.now.property) }
{
    let most = asked.options.most.unwrap_or(u32::MAX);
    match first_row(alloc, question, most) {
        Ok(Verdict::Never) => Ok(Answer::Never),
        Ok(Verdict::First(row)) => {
            let steps = subject.steps(asked.options.steps);
            Ok(Answer::First(history(alloc, asked.source, &row, steps)?))
        }
        Ok(Verdict::TooLarge(n)) => {
            Ok(Answer::TooLarge(n, narrowest(alloc, asked.source, subject, n)?))
        }
        Err(Refusal::OutOfMemory) => Err(Stop::Memory),
        Err(refusal) => Ok(Answer::Refused(refusal)),
    }
}
