// The report of a rule file.
ghost use Rattle.std.specs.Prelude.{◌≡◌, ◌++◌, [], ◌∷◌, All, IfOk, OnOk, length, codes, map, string_bytes, if◌then◌else◌};
ghost use Rattle.rule_report.specs.ShownRows.{picture_name};
ghost use Rattle.std.specs.List.{flat_map};
ghost use Rattle.std.specs.Fmt.{decimal};
ghost use Rattle.rule_source.specs.Asking.{Asks};
ghost use Rattle.rule_report.specs.Reported.{Reported, Reports, ReportsClaims, Tells, drawn, front_pictures, front_words, general, given_pictures, given_words, about, items, of_keep, of_claim, picture_names};

use crate::answer::{Answer, Asked, answer_to};
use crate::kept::kept_answer;
use crate::options::Options;
use crate::piece::{Report, picture_of};
use crate::progress::Progress;
use crate::shown_claim::shown_claim;
use crate::shown_rows::{Picture, Rows, history, title_of};
use crate::stop::Stop;
use crate::subject::{Subject, given_name};
use crate::told::{Answered, ending};
use diagram::history::History;
use rule_source::claimed::{Claim, claims_of};
use rule_source::given::Given;
use rule_source::kept::{Keep, keeps_of};
use rule_source::source::{Source, source_of};
use rules::property::Property;
use rules::question::Question;
use std::alloc::{AllocError, Global};

// The given row with that number, and the rows after it.
fn given(
    alloc: Global,
    asked: Asked<'_, '_>,
    number: usize,
    row: &Given,
) -> Result<Report, AllocError>
    ensures text { IfOk result (λ r. string_bytes r.text ≡ given_words asked.entry.source.now asked.entry.options.now row.now) }
    ensures pictures { IfOk result (λ r. picture_names r.pictures.items ≡ map (picture_name asked.entry.title.now) (if asked.entry.options.now.pictures then (codes "row-" ++ decimal number) ∷ [] else [])) }
{
    let history = history(alloc, asked.source, &row.columns, asked.options.steps)?;
    let layout = asked.source.bits.layout;
    let name = given_name(layout);
    let rows = Rows {
        layout,
        names: &asked.source.bits.names,
        history: &history,
    };
    let short = format!(in alloc; "row-{number}")?;
    Ok(Report {
        text: format!(in alloc; "  {name}\n{rows}")?,
        pictures: picture_of(alloc, asked, name, short.as_str(), &history)?,
    })
}

// The given rows, with the rows after them.
fn given_rows(alloc: Global, asked: Asked<'_, '_>) -> Result<Report, AllocError>
    ensures text { IfOk result (λ r. string_bytes r.text ≡ flat_map (given_words asked.entry.source.now asked.entry.options.now) asked.entry.source.now.rows.items) }
    ensures pictures { IfOk result (λ r. picture_names r.pictures.items ≡ map (picture_name asked.entry.title.now) (front_pictures asked.entry.source.now asked.entry.options.now)) }
{
    let mut report = Report {
        text: String::new(alloc),
        pictures: Vec::new(alloc),
    };
    for (i, row) in asked.source.rows.iter().enumerate() {
        report.append(given(alloc, asked, i + 1, row)?)?;
    }
    Ok(report)
}

// The file's name, and the given rows where something is to be seen of them.
fn front(alloc: Global, asked: Asked<'_, '_>) -> Result<Report, AllocError>
    ensures text { IfOk result (λ r. string_bytes r.text ≡ front_words asked.entry.file.now asked.entry.source.now asked.entry.options.now) }
    ensures pictures { IfOk result (λ r. picture_names r.pictures.items ≡ map (picture_name asked.entry.title.now) (front_pictures asked.entry.source.now asked.entry.options.now)) }
{
    let file = asked.file;
    let mut report = Report {
        text: format!(in alloc; "{file}\n")?,
        pictures: Vec::new(alloc),
    };
    if asked.options.steps == 0 && !asked.options.pictures {
        return Ok(report);
    }
    report.append(given_rows(alloc, asked)?)?;
    Ok(report)
}

// The picture of a first row, if pictures are wanted.
fn picture_of_answer(
    alloc: Global,
    asked: Asked<'_, '_>,
    subject: &Subject<'_>,
    answer: &Answer,
) -> Result<Vec<Picture>, AllocError>
    ensures { IfOk result (λ all. picture_names all.items ≡ map (picture_name asked.entry.title.now) (if asked.entry.options.now.pictures then drawn subject.now answer.now else [])) }
{
    match answer {
        Answer::First(history) => picture_of(
            alloc,
            asked,
            subject.name(asked.source.bits.layout),
            subject.short(),
            history,
        ),
        Answer::Never | Answer::TooLarge(_, _) | Answer::Refused(_) => Ok(Vec::new(alloc)),
    }
}

// The answer to a question, its picture if one is wanted, and its claim as the options want it shown.
fn answered(
    alloc: Global,
    asked: Asked<'_, '_>,
    subject: &Subject<'_>,
    question: &Question<'_>,
) -> Result<Report, Stop>
    requires { question.now.rule.now ≡ asked.source.now.rule }
    ensures { IfOk result (Tells asked.entry.file.now asked.entry.title.now asked.entry.source.now asked.entry.options.now (about subject.now question.now.property ∷ [])) }
{
    let source = asked.source;
    let answer = answer_to(alloc, asked, subject, question)?;
    let told = Answered {
        layout: source.bits.layout,
        subject: *subject,
        names: &source.bits.names,
        answer: &answer,
    };
    let ending = ending(alloc, asked.file, source.bits.text, &answer)?;
    let claim = shown_claim(alloc, asked, question)?;
    Ok(Report {
        text: format!(in alloc; "{told}{ending}{claim}")?,
        pictures: picture_of_answer(alloc, asked, subject, &answer)?,
    })
}

// The answer to a question that each rule gets.
fn answered_property(
    alloc: Global,
    asked: Asked<'_, '_>,
    subject: Subject<'_>,
    property: Property,
) -> Result<Report, Stop>
    ensures { IfOk result (Tells asked.entry.file.now asked.entry.title.now asked.entry.source.now asked.entry.options.now (about subject.entry property ∷ [])) }
{
    let source = asked.source;
    let question = Question::new(alloc, &source.rule, property)?;
    answered(alloc, asked, &subject, &question)
}

// The answers to the three questions that each rule gets.
fn general_answers(alloc: Global, asked: Asked<'_, '_>) -> Result<Report, Stop>
    ensures { IfOk result (Tells asked.entry.file.now asked.entry.title.now asked.entry.source.now asked.entry.options.now general) }
{
    let mut report = answered_property(alloc, asked, Subject::SomeAllowed, Property::Allowed)?;
    let stuck = answered_property(alloc, asked, Subject::NoneStuck, Property::Stuck)?;
    let left = answered_property(alloc, asked, Subject::AllowedKept, Property::Left)?;
    report.append(stuck)?;
    report.append(left)?;
    Ok(report)
}

// The answers to the claims of the file.
fn claim_answers(alloc: Global, asked: Asked<'_, '_>, claims: &[Claim<'_>]) -> Result<Report, Stop>
    requires { All (Asks asked.source.now) claims.now }
    ensures { IfOk result (Tells asked.entry.file.now asked.entry.title.now asked.entry.source.now asked.entry.options.now (map of_claim claims.now)) }
{
    let mut report = Report {
        text: String::new(alloc),
        pictures: Vec::new(alloc),
    };
    for claim in claims {
        let subject = Subject::Claim(claim.put, claim.name, claim.statement);
        report.append(answered(alloc, asked, &subject, &claim.question)?)?;
    }
    Ok(report)
}

// The answers on what the file claims to be kept.
fn kept_answers<P: Progress>(
    alloc: Global,
    asked: Asked<'_, '_>,
    keeps: &[Keep<'_>],
    watch: &mut P,
) -> Result<Report, Stop>
    ensures { IfOk result (Tells asked.entry.file.now asked.entry.title.now asked.entry.source.now asked.entry.options.now (map of_keep keeps.now)) }
{
    let mut report = Report {
        text: String::new(alloc),
        pictures: Vec::new(alloc),
    };
    for keep in keeps {
        report.append(kept_answer(alloc, asked, keep, watch)?)?;
    }
    Ok(report)
}

// The answers to the questions of a rule and to its claims, and on what is claimed to be kept.
fn answers<P: Progress>(
    alloc: Global,
    asked: Asked<'_, '_>,
    claims: &[Claim<'_>],
    keeps: &[Keep<'_>],
    watch: &mut P,
) -> Result<Report, Stop>
    requires { All (Asks asked.source.now) claims.now }
    ensures { IfOk result (Tells asked.entry.file.now asked.entry.title.now asked.entry.source.now asked.entry.options.now (items claims.now keeps.now)) }
{
    let mut report = general_answers(alloc, asked)?;
    report.append(claim_answers(alloc, asked, claims)?)?;
    report.append(kept_answers(alloc, asked, keeps, watch)?)?;
    Ok(report)
}

// The report of a rule and its claims.
fn report_on<P: Progress>(
    alloc: Global,
    asked: Asked<'_, '_>,
    claims: &[Claim<'_>],
    keeps: &[Keep<'_>],
    watch: &mut P,
) -> Result<Report, Stop>
    requires { All (Asks asked.source.now) claims.now }
    ensures { IfOk result (Reports asked.entry.file.now asked.entry.title.now asked.entry.source.now asked.entry.options.now claims.now keeps.now) }
{
    let mut report = front(alloc, asked)?;
    report.append(answers(alloc, asked, claims, keeps, watch)?)?;
    Ok(report)
}

// The report of a rule file that was read.
fn report_of_source<'s, 't: 's, P: Progress>(
    alloc: Global,
    file: &'s str,
    source: &'s Source<'t>,
    options: &'s Options,
    watch: &mut P,
) -> Result<Report, Stop>
    ensures { IfOk result (ReportsClaims file.now source.now options.now) }
{
    let claims = claims_of(alloc, source)?;
    let keeps = keeps_of(alloc, source)?;
    let asked = Asked {
        file,
        title: title_of(file),
        source,
        options,
    };
    report_on(alloc, asked, &claims, &keeps, watch)
}

fn report_of<'x, P: Progress>(
    alloc: Global,
    file: &'x str,
    text: &'x str,
    options: &'x Options,
    watch: &mut P,
) -> Result<Report, Stop>
    ensures { IfOk result (Reported file.now text.now options.now) }
{
    let source = source_of(alloc, text)?;
    report_of_source(alloc, file, &source, options, watch)
}

/// The report of a rule file, or the message that stands in its place where the file is at fault. How far it is where helpers are tried is told on the way. Fails for memory alone.
pub fn report_file<P: Progress>(
    alloc: Global,
    file: &str,
    text: &str,
    options: &Options,
    watch: &mut P,
) -> Result<Result<Report, String>, AllocError>
    ensures { IfOk result (λ r. IfOk r (Reported file.now text.now options.now)) }
{
    match report_of(alloc, file, text, options, watch) {
        Ok(report) => Ok(Ok(report)),
        Err(Stop::File(fault)) => {
            let shown = fault.shown(file, text);
            Ok(Err(format!(in alloc; "{shown}")?))
        }
        Err(Stop::Claim(refusal)) => Ok(Err(format!(in alloc; "{file}: {refusal}\n")?)),
        Err(Stop::Memory) => Err(AllocError),
    }
}
