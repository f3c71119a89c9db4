// Reads statements: one by the word that it begins with, or by the section in which it stands.
ghost use Rattle.std.specs.Prelude.{◌≡◌, ◌++◌, IfOk};
ghost use Rattle.rule_file.specs.Kinds.{HasWord};
ghost use Rattle.rule_file.specs.declared.token.Kind.TheVariants.{Name};
ghost use Rattle.rule_file.specs.Sections.{StandsIn};
ghost use Rattle.rule_file.specs.declared.section.Section.{Section};
ghost use Rattle.rule_file.specs.declared.section.Section.TheVariants.{Helpers, Table};
ghost use Rattle.rule_file.specs.Written.{heading_tokens, label_tokens, named_tokens, statement_tokens};

use crate::cursor::{expected, front, token};
use crate::effects::effects;
use crate::fault::{Fault, Wanted};
use crate::modules::modules;
use crate::patterns::pattern;
use crate::section::Section;
use crate::token::{Kind, Token};
use crate::tree::{Heading, Label, Named, Statement};
use std::alloc::Global;

/// A word of that kind and its colon.
pub fn heading<'a>(
    tokens: &'a [Token],
    kind: Kind,
    wanted: Wanted,
) -> Result<(Heading, &'a [Token]), Fault>
    ensures words { IfOk result (λ r. heading_tokens r.0 ++ r.1.now ≡ tokens.now) }
    ensures kind { IfOk result (λ r. r.0.word.kind ≡ kind) }
{
    let (word, rest) = token(tokens, kind, wanted)?;
    let (colon, rest) = token(rest, Kind::Colon, Wanted::Colon)?;
    Ok((Heading { word, colon }, rest))
}

// A word of that kind, a name and a colon.
fn named<'a>(tokens: &'a [Token], kind: Kind) -> Result<(Named, &'a [Token]), Fault>
    ensures words { IfOk result (λ r. named_tokens r.0 ++ r.1.now ≡ tokens.now) }
    ensures kind { IfOk result (λ r. r.0.word.kind ≡ kind) }
{
    let (word, rest) = token(tokens, kind, Wanted::Statement)?;
    let (name, rest) = token(rest, Kind::Name, Wanted::Name)?;
    let (colon, rest) = token(rest, Kind::Colon, Wanted::Colon)?;
    Ok((Named { word, name, colon }, rest))
}

// `allowed:`, with or without a formula.
fn allowed<'a>(tokens: &'a [Token]) -> Result<(Statement, &'a [Token]), Fault>
    ensures words { IfOk result (λ r. statement_tokens r.0 ++ r.1.now ≡ tokens.now) }
    ensures kind { IfOk result (λ r. HasWord r.0) }
    ensures stands { (s : Section) → IfOk result (λ r. StandsIn s r.0) }
{
    let (heading, rest) = heading(tokens, Kind::Allowed, Wanted::Statement)?;
    match front(rest, Kind::Formula) {
        Some((formula, rest)) => Ok((Statement::Limit(heading, formula), rest)),
        None => Ok((Statement::Allowed(heading), rest)),
    }
}

fn table_line<'a>(alloc: Global, tokens: &'a [Token]) -> Result<(Statement, &'a [Token]), Fault>
    ensures words { IfOk result (λ r. statement_tokens r.0 ++ r.1.now ≡ tokens.now) }
    ensures kind { IfOk result (λ r. HasWord r.0) }
    ensures stands { IfOk result (λ r. StandsIn Table r.0) }
{
    let (when, rest) = pattern(alloc, tokens)?;
    let (arrow, rest) = token(rest, Kind::Arrow, Wanted::TermOrArrow)?;
    let (effects, rest) = effects(alloc, rest)?;
    Ok((Statement::Line(when, arrow, effects), rest))
}

// `start:` and its formula.
fn start<'a>(tokens: &'a [Token]) -> Result<(Statement, &'a [Token]), Fault>
    ensures words { IfOk result (λ r. statement_tokens r.0 ++ r.1.now ≡ tokens.now) }
    ensures kind { IfOk result (λ r. HasWord r.0) }
    ensures stands { (s : Section) → IfOk result (λ r. StandsIn s r.0) }
{
    let (heading, rest) = heading(tokens, Kind::Start, Wanted::Statement)?;
    let (formula, rest) = token(rest, Kind::Formula, Wanted::Formula)?;
    Ok((Statement::Start(heading, formula), rest))
}

fn never<'a>(alloc: Global, tokens: &'a [Token]) -> Result<(Statement, &'a [Token]), Fault>
    ensures words { IfOk result (λ r. statement_tokens r.0 ++ r.1.now ≡ tokens.now) }
    ensures kind { IfOk result (λ r. HasWord r.0) }
    ensures stands { (s : Section) → IfOk result (λ r. StandsIn s r.0) }
{
    let (named, rest) = named(tokens, Kind::Never)?;
    let (pattern, rest) = pattern(alloc, rest)?;
    Ok((Statement::Never(named, pattern), rest))
}

fn claim<'a>(tokens: &'a [Token]) -> Result<(Statement, &'a [Token]), Fault>
    ensures words { IfOk result (λ r. statement_tokens r.0 ++ r.1.now ≡ tokens.now) }
    ensures kind { IfOk result (λ r. HasWord r.0) }
    ensures stands { (s : Section) → IfOk result (λ r. StandsIn s r.0) }
{
    let (named, rest) = named(tokens, Kind::Claim)?;
    let (formula, rest) = token(rest, Kind::Formula, Wanted::Formula)?;
    Ok((Statement::Claim(named, formula), rest))
}

fn kept<'a>(tokens: &'a [Token]) -> Result<(Statement, &'a [Token]), Fault>
    ensures words { IfOk result (λ r. statement_tokens r.0 ++ r.1.now ≡ tokens.now) }
    ensures kind { IfOk result (λ r. HasWord r.0) }
    ensures stands { (s : Section) → IfOk result (λ r. StandsIn s r.0) }
{
    let (named, rest) = named(tokens, Kind::Kept)?;
    let (formula, rest) = token(rest, Kind::Formula, Wanted::Formula)?;
    Ok((Statement::Kept(named, formula), rest))
}

// A name and its colon.
fn label<'a>(tokens: &'a [Token]) -> Result<(Label, &'a [Token]), Fault>
    ensures words { IfOk result (λ r. label_tokens r.0 ++ r.1.now ≡ tokens.now) }
    ensures kind { IfOk result (λ r. r.0.name.kind ≡ Name) }
{
    let (name, rest) = token(tokens, Kind::Name, Wanted::Name)?;
    let (colon, rest) = token(rest, Kind::Colon, Wanted::Colon)?;
    Ok((Label { name, colon }, rest))
}

// A line below `helpers:`.
fn helper<'a>(tokens: &'a [Token]) -> Result<(Statement, &'a [Token]), Fault>
    ensures words { IfOk result (λ r. statement_tokens r.0 ++ r.1.now ≡ tokens.now) }
    ensures kind { IfOk result (λ r. HasWord r.0) }
    ensures stands { IfOk result (λ r. StandsIn Helpers r.0) }
{
    let (label, rest) = label(tokens)?;
    let (formula, rest) = token(rest, Kind::Formula, Wanted::Formula)?;
    Ok((Statement::Helper(label, formula), rest))
}

fn row<'a>(alloc: Global, tokens: &'a [Token]) -> Result<(Statement, &'a [Token]), Fault>
    ensures words { IfOk result (λ r. statement_tokens r.0 ++ r.1.now ≡ tokens.now) }
    ensures kind { IfOk result (λ r. HasWord r.0) }
    ensures stands { (s : Section) → IfOk result (λ r. StandsIn s r.0) }
{
    let (heading, rest) = heading(tokens, Kind::Row, Wanted::Statement)?;
    let (modules, rest) = modules(alloc, rest)?;
    Ok((Statement::Row(heading, modules), rest))
}

// A line that begins with no word of its own: it is as its section says.
fn in_section<'a>(
    alloc: Global,
    section: Section,
    tokens: &'a [Token],
) -> Result<(Statement, &'a [Token]), Fault>
    ensures words { IfOk result (λ r. statement_tokens r.0 ++ r.1.now ≡ tokens.now) }
    ensures kind { IfOk result (λ r. HasWord r.0) }
    ensures stands { IfOk result (λ r. StandsIn section r.0) }
{
    match section {
        Section::Outside => Err(expected(Wanted::Statement, tokens)),
        Section::Allowed => {
            let (pattern, rest) = pattern(alloc, tokens)?;
            Ok((Statement::Pattern(pattern), rest))
        }
        Section::Table => table_line(alloc, tokens),
        Section::Helpers => helper(tokens),
    }
}

/// The statement that the tokens begin with, in its section.
pub fn statement<'a>(
    alloc: Global,
    section: Section,
    tokens: &'a [Token],
) -> Result<(Statement, &'a [Token]), Fault>
    ensures words { IfOk result (λ r. statement_tokens r.0 ++ r.1.now ≡ tokens.now) }
    ensures kind { IfOk result (λ r. HasWord r.0) }
    ensures stands { IfOk result (λ r. StandsIn section r.0) }
{
    let Some(first) = tokens.first() else {
        return Err(expected(Wanted::Statement, tokens));
    };
    match first.kind {
        Kind::Bits => Err(Fault::SecondBits(*first)),
        Kind::Ring => Err(Fault::LateRing(*first)),
        Kind::Allowed => allowed(tokens),
        Kind::Table => {
            let (heading, rest) = heading(tokens, Kind::Table, Wanted::Statement)?;
            Ok((Statement::Table(heading), rest))
        }
        Kind::Start => start(tokens),
        Kind::Never => never(alloc, tokens),
        Kind::Claim => claim(tokens),
        Kind::Kept => kept(tokens),
        Kind::Helpers => {
            let (heading, rest) = heading(tokens, Kind::Helpers, Wanted::Statement)?;
            Ok((Statement::Helpers(heading), rest))
        }
        Kind::Row => row(alloc, tokens),
        _ => in_section(alloc, section, tokens),
    }
}

/// What could stand behind a statement on its line.
pub fn wanted_behind(statement: &Statement) -> Wanted {
    match statement {
        Statement::Pattern(_) | Statement::Never(_, _) => Wanted::TermOrEnd,
        Statement::Line(_, _, _) => Wanted::ChangeOrEnd,
        Statement::Row(_, _) => Wanted::ModuleOrEnd,
        _ => Wanted::LineEnd,
    }
}
