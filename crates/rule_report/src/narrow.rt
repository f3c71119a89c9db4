// Where in a rule file too much is told apart: the first statement with which, behind those before it, the claim is too large for so many classes. Where
// a claim of the file is too large before any of them, it is that claim's own statement.
ghost use Rattle.std.specs.Prelude.{◌≡◌, IfOk, MatchBool, is_some};
ghost use Rattle.rule_report.specs.Narrowing.{AsksFor, IsAnswered, IsFound, IsLarge, IsNarrowest, OfLines, SaysLarge, is_claim, is_of_rule};

use crate::stop::Stop;
use crate::subject::Subject;
use claims::encode::Refusal;
use rule_check::first_row::first_row;
use rule_check::verdict::Verdict;
use rule_file::tree::{Line, Statement};
use rule_source::claimed::property_of;
use rule_source::source::{Source, rule_of, statement_span};
use rules::property::Property;
use rules::question::Question;
use std::alloc::Global;
use trees::position::Span;

// The property that the subject asks for.
fn property(alloc: Global, source: &Source<'_>, subject: &Subject<'_>) -> Result<Property, Stop>
    ensures { IfOk result (AsksFor source.now.bits subject.now) }
{
    match subject {
        Subject::SomeAllowed => Ok(Property::Allowed),
        Subject::NoneStuck => Ok(Property::Stuck),
        Subject::AllowedKept => Ok(Property::Left),
        Subject::Claim(_, _, statement) => Ok(property_of(alloc, &source.bits, *statement)?),
    }
}

// What is found of the subject's question where the rule has these statements alone.
fn verdict_of(
    alloc: Global,
    source: &Source<'_>,
    subject: &Subject<'_>,
    lines: &[Line],
    most: u32,
) -> Result<Result<Verdict, Refusal>, Stop>
    ensures { IfOk result (λ found. OfLines (IsFound most found) source.now.bits subject.now lines.now) }
{
    let rule = rule_of(alloc, &source.bits, lines)?;
    let property = property(alloc, source, subject)?;
    let question = Question::new(alloc, &rule, property)?;
    let verdict = first_row(alloc, &question, most);
    Ok(verdict)
}

// Whether what is found is that it is too large.
fn says_large(found: Result<Verdict, Refusal>) -> Result<bool, Stop>
    ensures { IfOk result (SaysLarge found) }
{
    match found {
        Ok(Verdict::TooLarge(_)) => Ok(true),
        Ok(Verdict::Never | Verdict::First(_)) => Ok(false),
        Err(Refusal::OutOfMemory) => Err(Stop::Memory),
        Err(Refusal::TooManyBytes(_) | Refusal::TooManySets(_)) => Ok(true),
    }
}

// Whether the claim is too large where the rule has these statements alone. If it is not, it is answered.
fn is_large(
    alloc: Global,
    source: &Source<'_>,
    subject: &Subject<'_>,
    lines: &[Line],
    most: u32,
) -> Result<bool, Stop>
    ensures { IfOk result (λ large. MatchBool large (OfLines (IsLarge most) source.now.bits subject.now lines.now) (OfLines IsAnswered source.now.bits subject.now lines.now)) }
{
    let found = verdict_of(alloc, source, subject, lines, most)?;
    let large = says_large(found)?;
    Ok(large)
}

// Where the subject itself stands in the file.
fn own_span(subject: &Subject<'_>) -> Option<Span>
    ensures { is_some result ≡ is_claim subject.now }
{
    match subject {
        Subject::Claim(_, _, statement) => Some(statement_span(*statement)),
        _ => None,
    }
}

/// Where a claim gets too large for so many classes, which it is; none where it is so before the first statement, whatever the file says.
pub fn narrowest(
    alloc: Global,
    source: &Source<'_>,
    subject: &Subject<'_>,
    most: u32,
) -> Result<Option<Span>, Stop>
    ensures { IfOk result (IsNarrowest most source.now subject.now) }
{
    let lines = source.file.lines.as_slice();
    if is_large(alloc, source, subject, &lines[..0], most)? {
        return Ok(own_span(subject));
    }
    for (k, line) in lines.iter().enumerate() {
        if !is_of_rule(&line.statement) {
            continue;
        }
        if is_large(alloc, source, subject, &lines[..k + 1], most)? {
            return Ok(Some(statement_span(&line.statement)));
        }
    }
    Ok(None)
}

// Whether the statement makes the rule another one.
fn is_of_rule(statement: &Statement) -> bool
    ensures { result ≡ is_of_rule statement.now }
{
    match statement {
        Statement::Pattern(_) | Statement::Limit(_, _) | Statement::Line(_, _, _) => true,
        _ => false,
    }
}
