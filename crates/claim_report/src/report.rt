// A text, and what is reported of it.
ghost use Rattle.std.specs.Prelude.{◌≡◌, IfOk, string_bytes};
ghost use Rattle.claim_report.specs.Told.{columns_told};
ghost use Rattle.claim_report.specs.Reported.{Reported, Fulfils, told, IsLines, ShowsAutomaton};
ghost use Rattle.claim_report.specs.Placed.{IsBeginning, IsPlace, IsPlaceOf, IsTooLarge};
ghost use Rattle.claim_report.specs.declared.report.Form.TheVariants.{Rows};

use crate::automaton::{Drawing, Smallest, drawn, smallest_automaton};
use crate::declared::{names_of, subject_of};
use crate::stop::Stop;
use crate::told::{InColumns, Told};
use display::hex::Hex;
use solve::answer::{Answer, allowed, answered};
use solve::narrow::narrowest;
use solve::question::question_of;
use std::alloc::{AllocError, Global};
use syntax::parse::read;
use trees::beside::beside;
use trees::position::{Span, position_of};
use trees::tree::Item;

/// How an answer is shown: in words, with first words as rows of marks, or in one line, words as numbers.
#[derive(Clone, Copy, Debug, PartialEq, Eq)]
pub enum Form {
    Rows,
    Columns,
}

/// What is wanted of a text: its answer; its smallest automaton; the lines that the line tool reads.
#[derive(Clone, Copy, Debug, PartialEq, Eq)]
pub enum Wish {
    Answer(Form),
    Automaton(Drawing),
    Bytes,
}

/// The name of a text, for messages, and its bytes.
#[derive(Clone, Copy)]
pub struct Source<'a> {
    pub file: &'a str,
    pub text: &'a [u8],
}

// The lines that the line tool reads: about the claim, and about its opposite.
fn lines(alloc: Global, items: &[Item], most: Option<u32>) -> Result<String, Stop>
    ensures { IfOk result (λ words. IsLines items.now (string_bytes words)) }
{
    let question = question_of(alloc, items)?;
    let most = allowed(&question, most)?;
    let holds = Hex(&question.holds);
    let fails = Hex(&question.fails);
    Ok(format!(in alloc; "{most} {holds}\n{most} {fails}\n")?)
}

// Where a span begins, and a message beside its line.
fn begins(alloc: Global, source: Source<'_>, span: Span) -> Result<String, AllocError>
    ensures { IfOk result (λ words. IsBeginning source.entry.file.now source.entry.text.now span (string_bytes words)) }
{
    let file = source.file;
    let place = position_of(source.text, span.start);
    let line = place.line;
    let column = place.column;
    let message = "here the innermost part begins that is too large by itself";
    let beside = beside(file, source.text, span, message);
    format!(in alloc; " at {file}:{line}:{column}\n{beside}")
}

// Where more than so many classes are told apart.
fn place(alloc: Global, source: Source<'_>, items: &[Item], most: u32) -> Result<String, Stop>
    ensures { IfOk result (λ words. IsPlace source.entry.file.now source.entry.text.now items.now most (string_bytes words)) }
{
    match narrowest(alloc, items, most)? {
        Some(span) => Ok(begins(alloc, source, span)?),
        None => {
            let file = source.file;
            Ok(format!(in alloc; " at {file}, all formulas together\n")?)
        }
    }
}

// An answer in one line, words as numbers.
fn in_columns(alloc: Global, answer: &Answer) -> Result<String, AllocError>
    ensures { IfOk result (λ words. string_bytes words ≡ columns_told answer.now) }
{
    let told = InColumns(answer);
    format!(in alloc; "{told}")
}

// An answer in words, with first words as rows of marks.
fn in_words(alloc: Global, items: &[Item], answer: &Answer) -> Result<String, AllocError>
    ensures { IfOk result (λ words. string_bytes words ≡ told Rows items.now answer.now) }
{
    let subject = subject_of(items);
    let mut names = names_of(alloc, items)?;
    if subject.shape.is_some() && names.is_empty() {
        names.push("")?;
    }
    let told = Told {
        subject,
        names: &names,
        answer,
    };
    format!(in alloc; "{told}")
}

// An answer, in either form.
fn told_of(alloc: Global, items: &[Item], answer: &Answer, form: Form) -> Result<String, AllocError>
    ensures { IfOk result (λ words. string_bytes words ≡ told form items.now answer.now) }
{
    match form {
        Form::Columns => in_columns(alloc, answer),
        Form::Rows => in_words(alloc, items, answer),
    }
}

// Where an answer is too large; nothing where it is not.
fn place_of(
    alloc: Global,
    source: Source<'_>,
    items: &[Item],
    answer: &Answer,
) -> Result<String, Stop>
    ensures { IfOk result (λ words. IsPlaceOf source.entry.file.now source.entry.text.now items.now answer.now (string_bytes words)) }
{
    match answer {
        Answer::TooLarge(most) => place(alloc, source, items, *most),
        Answer::Always => Ok(String::new(alloc)),
        Answer::Unmet => Ok(String::new(alloc)),
        Answer::Never => Ok(String::new(alloc)),
        Answer::Both(_, _) => Ok(String::new(alloc)),
    }
}

// The answer of a text that is read.
fn answer_of(
    alloc: Global,
    source: Source<'_>,
    items: &[Item],
    most: Option<u32>,
    form: Form,
) -> Result<String, Stop>
    ensures { IfOk result (λ words. Reported source.entry.file.now source.entry.text.now form items.now (string_bytes words)) }
{
    let answer = answered(alloc, items, most)?;
    let mut words = told_of(alloc, items, &answer, form)?;
    let place = place_of(alloc, source, items, &answer)?;
    words.push_str(place.as_str())?;
    Ok(words)
}

// That an automaton is too large, and where.
fn too_large(alloc: Global, source: Source<'_>, items: &[Item], most: u32) -> Result<String, Stop>
    ensures { IfOk result (λ words. IsTooLarge source.entry.file.now source.entry.text.now items.now most (string_bytes words)) }
{
    let answer = Answer::TooLarge(most);
    let mut words = in_columns(alloc, &answer)?;
    let place = place(alloc, source, items, most)?;
    words.push_str(place.as_str())?;
    Ok(words)
}

// The automaton of a text that is read, or where it is too large.
fn automaton(
    alloc: Global,
    source: Source<'_>,
    items: &[Item],
    most: Option<u32>,
    drawing: Drawing,
) -> Result<String, Stop>
    ensures { IfOk result (λ words. ShowsAutomaton source.entry.file.now source.entry.text.now items.now (string_bytes words)) }
{
    match smallest_automaton(alloc, items, most)? {
        Smallest::Automaton(automaton) => drawn(alloc, items, &automaton, drawing),
        Smallest::TooLarge(n) => too_large(alloc, source, items, n),
    }
}

fn reported(
    alloc: Global,
    source: Source<'_>,
    most: Option<u32>,
    wish: Wish,
) -> Result<String, Stop>
    ensures { IfOk result (λ printed. Fulfils source.entry.file.now source.entry.text.now wish (string_bytes printed)) }
{
    let items = read(alloc, source.text)?;
    match wish {
        Wish::Bytes => lines(alloc, &items, most),
        Wish::Answer(form) => answer_of(alloc, source, &items, most, form),
        Wish::Automaton(drawing) => automaton(alloc, source, &items, most, drawing),
    }
}

/// What is reported of a text, with at most so many classes told apart, or as many as there is memory for: what is wanted, or the message that stands in its place. Fails for memory.
pub fn report(
    alloc: Global,
    source: Source<'_>,
    most: Option<u32>,
    wish: Wish,
) -> Result<Result<String, String>, AllocError>
    ensures { IfOk result (λ r. IfOk r (λ printed. Fulfils source.entry.file.now source.entry.text.now wish (string_bytes printed))) }
{
    match reported(alloc, source, most, wish) {
        Ok(words) => Ok(Ok(words)),
        Err(stop) => Ok(Err(stop.message(alloc, source.file, source.text)?)),
    }
}
