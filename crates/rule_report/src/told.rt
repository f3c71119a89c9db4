// What is found of a question, in words.
ghost use Rattle.std.specs.Prelude.{Some, IfOk, map, string_bytes};
ghost use Rattle.rule_report.specs.Told.{Ends, PlacedAt, told};

use crate::answer::Answer;
use crate::shown_rows::Rows;
use crate::subject::Subject;
use rows::rule::Layout;
use std::alloc::{AllocError, Global};
use std::fmt;
use trees::beside::beside;
use trees::position::{Span, position_of};

/// An answer that prints as the report has it: what is claimed, what is found, and the rows. Where it is too large, where that is stands behind.
#[derive(Clone, Copy)]
pub struct Answered<'u, 'n, 't, 'a> {
    pub layout: Layout,
    pub subject: Subject<'u>,
    pub names: &'n [&'t str],
    pub answer: &'a Answer,
}

impl fmt::Display for Answered<'_, '_, '_, '_> {
    ghost output = { λ answered. Some (told answered.layout (map (λ name. name.now) answered.names.now) answered.subject answered.answer.now) };

    fn fmt<W: fmt::Write>(&self, f: &mut fmt::Formatter<W>) -> fmt::Result {
        let name = self.subject.name(self.layout);
        match self.answer {
            Answer::Never => {
                let settled = self.subject.settled(self.layout);
                write!(f, "  {name}: {settled}\n")
            }
            Answer::First(history) => {
                let found = self.subject.found(self.layout);
                let count = history.modules;
                let rows = Rows {
                    layout: self.layout,
                    names: self.names,
                    history,
                };
                write!(f, "  {name}: {found} {count}\n{rows}")
            }
            Answer::TooLarge(most, _) => write!(
                f,
                "  {name}: too large: more than {most} classes are told apart at "
            ),
            Answer::Refused(_) => write!(f, "  {name}: too large: "),
        }
    }
}

/// The place in the file, and the line with a caret under it and what is the matter there.
pub fn placed(
    alloc: Global,
    file: &str,
    text: &str,
    span: Span,
    message: &str,
) -> Result<String, AllocError>
    ensures { IfOk result (λ words. PlacedAt file.now text.now span (string_bytes words)) }
{
    let place = position_of(text.as_bytes(), span.start);
    let (line, column) = (place.line, place.column);
    let beside = beside(file, text.as_bytes(), span, message);
    format!(in alloc; "{file}:{line}:{column}\n{beside}")
}

/// What stands behind an answer that is too large: where, or why. Fails for memory.
pub fn ending(alloc: Global, file: &str, text: &str, answer: &Answer) -> Result<String, AllocError>
    ensures { IfOk result (λ words. Ends file.now text.now answer.now (string_bytes words)) }
{
    match answer {
        Answer::Never | Answer::First(_) => Ok(String::new(alloc)),
        Answer::TooLarge(_, None) => format!(in alloc; "{file}, whatever its lines say\n"),
        Answer::TooLarge(_, Some(span)) => placed(
            alloc,
            file,
            text,
            *span,
            "with this, and what stands before it, it gets too large",
        ),
        Answer::Refused(refusal) => format!(in alloc; "{refusal}\n"),
    }
}
