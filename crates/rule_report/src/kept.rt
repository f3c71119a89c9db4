// What is told of a claim that something is kept.
ghost use Rattle.std.specs.Prelude.{◌≡◌, ◌∷◌, [], Some, IfOk, map, max, string_bytes, if◌then◌else◌};
ghost use Rattle.kept_check.specs.declared.answer.Answer.TheVariants as answer;
ghost use Rattle.rule_report.specs.KeptAnswers.{IsTold, drawn_of};
ghost use Rattle.rule_report.specs.KeptWords.{breach_words, moment_of, why_of};
ghost use Rattle.rule_report.specs.ShownRows.{Follows, picture_name};
ghost use Rattle.rule_report.specs.Reported.{Tells, of_keep, picture_names};

use crate::answer::Asked;
use crate::helped::help;
use crate::piece::{Report, picture_of};
use crate::progress::Progress;
use crate::shown_keeping::shown_keeping;
use crate::shown_rows::{Rows, history};
use crate::stop::Stop;
use crate::told::placed;
use diagram::history::History;
use keeping::moment::Moment;
use kept_check::answer::{Answer, Breach, Large, TooLarge};
use kept_check::judge_kept::judge_kept;
use kept_check::part;
use rule_check::memory::Memory;
use rule_source::kept::Keep;
use rule_source::source::statement_span;
use std::alloc::{AllocError, Global};
use std::fmt;

/// At which moment a row shows that something is not kept.
pub fn moment_words(moment: Moment) -> &'static str
    ensures { result.now ≡ moment_of moment }
{
    match moment {
        Moment::Start => "at the start",
        Moment::Step => "in a step",
    }
}

/// How large a claim is that is not judged.
#[derive(Clone, Copy)]
pub struct Why(pub Large);

impl fmt::Display for Why {
    ghost output = { λ why. Some (why_of why.0) };

    fn fmt<W: fmt::Write>(&self, f: &mut fmt::Formatter<W>) -> fmt::Result {
        match self.0 {
            Large::Classes(n) => write!(f, "more than {n} classes are told apart"),
            Large::Bytes(n) => write!(f, "{n} bytes are needed, and at most 1024 can be judged"),
            Large::Sets(n) => write!(f, "{n} sets are needed, and at most 12 can be judged"),
        }
    }
}

/// The first row that shows that something is not kept, and the rows after it, one at least.
pub fn breach_history(
    alloc: Global,
    asked: Asked<'_, '_>,
    breach: &Breach,
) -> Result<History, AllocError>
    ensures { IfOk result (Follows asked.entry.source.now.rule breach.now.row.items (max asked.entry.options.now.steps 1)) }
{
    let steps = asked.options.steps.max(1);
    history(alloc, asked.source, &breach.row, steps)
}

/// What is told of that row, behind what is not kept.
pub fn breach_words(
    alloc: Global,
    asked: Asked<'_, '_>,
    breach: &Breach,
    history: &History,
) -> Result<String, AllocError>
    requires { Follows asked.source.now.rule breach.now.row.items (max asked.options.now.steps 1) history.now }
    ensures { IfOk result (λ words. string_bytes words ≡ breach_words asked.entry.source.now asked.entry.options.now breach.now) }
{
    let source = asked.source;
    let rows = Rows {
        layout: source.bits.layout,
        names: &source.bits.names,
        history,
    };
    let count = history.modules;
    let moment = moment_words(breach.moment);
    format!(in alloc; "not kept, first at length {count}, {moment}\n{rows}")
}

// What is told of the first row that shows that it is not kept: the row, the rows after it, and their picture.
fn told_breach(
    alloc: Global,
    asked: Asked<'_, '_>,
    keep: &Keep<'_>,
    breach: &Breach,
) -> Result<Report, AllocError>
    ensures text { IfOk result (λ r. IsTold asked.entry.file.now asked.entry.source.now asked.entry.options.now keep.now (answer.NotKept breach.now) (string_bytes r.text)) }
    ensures pictures { IfOk result (λ r. picture_names r.pictures.items ≡ map (picture_name asked.entry.title.now) (if asked.entry.options.now.pictures then drawn_of keep.now (answer.NotKept breach.now) else [])) }
{
    let history = breach_history(alloc, asked, breach)?;
    let words = breach_words(alloc, asked, breach, &history)?;
    let name = keep.name;
    Ok(Report {
        text: format!(in alloc; "  {name}: {words}")?,
        pictures: picture_of(alloc, asked, name, name, &history)?,
    })
}

// What is told where it is too large: which part, and where the claim stands in the file.
fn told_large(
    alloc: Global,
    asked: Asked<'_, '_>,
    keep: &Keep<'_>,
    large: TooLarge,
) -> Result<Report, AllocError>
    ensures text { IfOk result (λ r. IsTold asked.entry.file.now asked.entry.source.now asked.entry.options.now keep.now (answer.TooLarge large) (string_bytes r.text)) }
    ensures pictures { IfOk result (λ r. picture_names r.pictures.items ≡ map (picture_name asked.entry.title.now) (if asked.entry.options.now.pictures then drawn_of keep.now (answer.TooLarge large) else [])) }
{
    let source = asked.source;
    let statement = keep.statement;
    let span = statement_span(statement);
    let message = "a part of this claim is too large";
    let place = placed(alloc, asked.file, source.bits.text, span, message)?;
    let name = keep.name;
    let part = large.part;
    let moment = moment_words(large.moment);
    let why = Why(large.why);
    Ok(Report {
        text: format!(in alloc; "  {name}: too large: part {part}, {moment}: {why} at {place}")?,
        pictures: Vec::new(alloc),
    })
}

// What is told of an answer.
fn told(
    alloc: Global,
    asked: Asked<'_, '_>,
    keep: &Keep<'_>,
    answer: &Answer,
) -> Result<Report, AllocError>
    ensures text { IfOk result (λ r. IsTold asked.entry.file.now asked.entry.source.now asked.entry.options.now keep.now answer.now (string_bytes r.text)) }
    ensures pictures { IfOk result (λ r. picture_names r.pictures.items ≡ map (picture_name asked.entry.title.now) (if asked.entry.options.now.pictures then drawn_of keep.now answer.now else [])) }
{
    match answer {
        Answer::Kept => {
            let name = keep.name;
            Ok(Report {
                text: format!(in alloc; "  {name}: kept, settled for every length\n")?,
                pictures: Vec::new(alloc),
            })
        }
        Answer::NotKept(breach) => told_breach(alloc, asked, keep, breach),
        Answer::TooLarge(large) => told_large(alloc, asked, keep, *large),
    }
}

/// The answer on one claim that something is kept, the claims that were judged as the options want them shown, and with the help of which claims of the file it is kept where by itself it is not. Fails for memory, and where a claim has no text.
pub fn kept_answer<P: Progress>(
    alloc: Global,
    asked: Asked<'_, '_>,
    keep: &Keep<'_>,
    watch: &mut P,
) -> Result<Report, Stop>
    ensures { IfOk result (Tells asked.entry.file.now asked.entry.title.now asked.entry.source.now asked.entry.options.now (of_keep keep.now ∷ [])) }
{
    let memory = Memory::program(asked.options.most.unwrap_or(u32::MAX));
    let keeping = &keep.keeping;
    let answer = judge_kept(alloc, part::Asked { keeping, memory })?;
    let told = told(alloc, asked, keep, &answer)?;
    let claims = shown_keeping(alloc, asked, keeping)?;
    let help = help(alloc, asked, keep, memory, &answer, watch)?;
    let Report { text, pictures } = told;
    Ok(Report {
        text: format!(in alloc; "{text}{claims}{help}")?,
        pictures,
    })
}
