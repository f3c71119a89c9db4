// A rule file, read: the rule, how its runs may begin, what may help to keep a claim, and its given rows.
ghost use Rattle.std.specs.Prelude.{◌≡◌, ◌≤◌, IfOk, OnOk, List, length, map, [], ◌++◌};
ghost use Rattle.std.specs.List.{AllZip, cons_option};
ghost use Rattle.rule_file.specs.Claims.{bytes_of};
ghost use Rattle.rule_file.specs.Covering.{Covers};
ghost use Rattle.rule_file.specs.Written.{file_tokens};
ghost use Rattle.rule_file.specs.declared.token.Token.{Token};
ghost use Rattle.rule_file.specs.declared.tree.Module.{Module};
ghost use Rattle.rule_source.specs.Effects.{AllNameOnce, NamesOnce, line_by, table_in};
ghost use Rattle.rule_source.specs.Formulas.{AreHelpers, AreLimits, AreStarts, FormulaOf, helper_of, helpers_in, limit_of, start_of};
ghost use Rattle.rule_source.specs.Given.{AreRows, IsRow, row_by};
ghost use Rattle.rule_source.specs.Layouts.{layout_of};
ghost use Rattle.rule_source.specs.Patterns.{allowed_by, allowed_in};
ghost use Rattle.rule_source.specs.declared.formula.About.TheVariants.{Row};

use crate::bits::Bits;
use crate::fault::Fault;
use crate::formula::{About, formula_of};
use crate::given::{Given, row_of};
use crate::lines::line_of;
use crate::pattern::pattern_of;
use formulas::formula::Formula;
use rows::line::{Line, Pattern};
use rows::rule::Layout;
use rule_file::parse::read;
use rule_file::token::Token;
use rule_file::tree::{File, Statement};
use rules::rule::Rule;
use std::alloc::Global;
use trees::position::Span;

/// A rule file, read. Its rule is sound, and its modules have one to five bits.
#[derive(Drop)]
pub struct Source<'t> {
    pub bits: Bits<'t>,
    pub file: File,
    pub rule: Rule,
    // all that holds of the first row of a run; they are no part of the rule
    pub starts: Vec<Formula>,
    // what may help to keep a claim; no part of the rule either
    pub helpers: Vec<Formula>,
    pub rows: Vec<Given>,
    pub ghost few: { rule.bits ≤ 5 },
    pub ghost each: { length (helpers_in file.lines.items) ≡ length helpers.items },
}

/// Where a pattern stands.
pub fn pattern_span(pattern: &rule_file::tree::Pattern) -> Span {
    let first = pattern.left.first().map(|term| term.span());
    let last = pattern.right.last().map(|term| term.span());
    let bars = pattern.first.span.to(pattern.second.span);
    first.unwrap_or(bars).to(last.unwrap_or(bars))
}

/// Where a statement stands: its pattern, its formula, or its first word.
pub fn statement_span(statement: &Statement) -> Span {
    match statement {
        Statement::Pattern(pattern)
        | Statement::Line(pattern, _, _)
        | Statement::Never(_, pattern) => pattern_span(pattern),
        Statement::Limit(_, formula)
        | Statement::Start(_, formula)
        | Statement::Claim(_, formula)
        | Statement::Kept(_, formula)
        | Statement::Helper(_, formula) => formula.span,
        Statement::Allowed(heading)
        | Statement::Table(heading)
        | Statement::Helpers(heading)
        | Statement::Row(heading, _) => heading.word.span,
    }
}

// How the modules of a file lie: in a ring where it says so, else in a line.
fn layout_of(file: &File) -> Layout
    ensures { result ≡ layout_of file.now.ring }
{
    match file.ring {
        None => Layout::Line,
        Some(_) => Layout::Ring,
    }
}

// The formula about a row alone that a token is.
fn row_formula(alloc: Global, bits: &Bits<'_>, formula: Token) -> Result<Formula, Fault>
    ensures { IfOk result (FormulaOf bits.now Row formula) }
{
    let formula = formula_of(alloc, bits, About::Row, formula)?;
    Ok(Box::into_inner(formula))
}

// What has been read so far.
#[derive(Drop)]
struct Reading {
    allowed: Vec<Pattern>,
    limits: Vec<Formula>,
    starts: Vec<Formula>,
    helpers: Vec<Formula>,
    table: Vec<(Line, Span)>,
    rows: Vec<Given>,
}

impl Reading {
    // A statement more. Claims are read once the rule stands.
    #[tactic(auto, using(crate::proofs::NamesLaws::zip_none, crate::proofs::NamesLaws::zip_one))]
    fn add(&mut self, alloc: Global, bits: &Bits<'_>, statement: &Statement) -> Result<(), Fault>
        ensures patterns { OnOk result (self.new.allowed.items ≡ self.old.allowed.items ++ cons_option (allowed_by bits.now statement.now) []) }
        ensures limits { OnOk result ((ts : List Token) → AllZip (FormulaOf bits.now Row) ts self.old.limits.items → AllZip (FormulaOf bits.now Row) (ts ++ cons_option (limit_of statement.now) []) self.new.limits.items) }
        ensures starts { OnOk result ((ts : List Token) → AllZip (FormulaOf bits.now Row) ts self.old.starts.items → AllZip (FormulaOf bits.now Row) (ts ++ cons_option (start_of statement.now) []) self.new.starts.items) }
        ensures helpers { OnOk result ((ts : List Token) → AllZip (FormulaOf bits.now Row) ts self.old.helpers.items → AllZip (FormulaOf bits.now Row) (ts ++ cons_option (helper_of statement.now) []) self.new.helpers.items) }
        ensures lines { OnOk result (map (λ l. l.0) self.new.table.items ≡ map (λ l. l.0) self.old.table.items ++ cons_option (line_by bits.now statement.now) []) }
        ensures once { OnOk result (NamesOnce bits.now statement.now) }
        ensures rows { OnOk result ((ms : List (List Module)) → AllZip (IsRow bits.now) ms self.old.rows.items → AllZip (IsRow bits.now) (ms ++ cons_option (row_by statement.now) []) self.new.rows.items) }
    {
        match statement {
            Statement::Allowed(_) | Statement::Table(_) | Statement::Helpers(_) => {}
            Statement::Never(_, _) | Statement::Claim(_, _) | Statement::Kept(_, _) => {}
            Statement::Pattern(pattern) => self.allowed.push(pattern_of(alloc, bits, pattern)?)?,
            Statement::Limit(_, formula) => {
                self.limits.push(row_formula(alloc, bits, *formula)?)?
            }
            Statement::Start(_, formula) => {
                self.starts.push(row_formula(alloc, bits, *formula)?)?
            }
            Statement::Helper(_, formula) => {
                self.helpers.push(row_formula(alloc, bits, *formula)?)?
            }
            Statement::Line(when, _, effects) => {
                let span = pattern_span(when);
                let line = line_of(alloc, bits, &self.table, span, when, effects)?;
                self.table.push((line, span))?;
            }
            Statement::Row(heading, modules) => {
                self.rows
                    .push(row_of(alloc, bits, heading.word.span, modules)?)?;
            }
        }
        Ok(())
    }
}

// What the statements say.
fn reading_of(
    alloc: Global,
    bits: &Bits<'_>,
    lines: &[rule_file::tree::Line],
) -> Result<Reading, Fault>
    ensures patterns { IfOk result (λ r. r.allowed.items ≡ allowed_in bits.now lines.now) }
    ensures limits { IfOk result (λ r. AreLimits bits.now lines.now r.limits.items) }
    ensures starts { IfOk result (λ r. AreStarts bits.now lines.now r.starts.items) }
    ensures helpers { IfOk result (λ r. AreHelpers bits.now lines.now r.helpers.items) }
    ensures lines { IfOk result (λ r. map (λ l. l.0) r.table.items ≡ table_in bits.now lines.now) }
    ensures once { OnOk result (AllNameOnce bits.now lines.now) }
    ensures rows { IfOk result (λ r. AreRows bits.now lines.now r.rows.items) }
{
    let mut reading = Reading {
        allowed: Vec::new(alloc),
        limits: Vec::new(alloc),
        starts: Vec::new(alloc),
        helpers: Vec::new(alloc),
        table: Vec::new(alloc),
        rows: Vec::new(alloc),
    };
    for line in lines {
        reading.add(alloc, bits, &line.statement)?;
    }
    Ok(reading)
}

// The rule of what was read, how its runs may begin, what may help, and the given rows.
fn made(
    alloc: Global,
    bits: &Bits<'_>,
    reading: Reading,
) -> Result<(Rule, Vec<Formula>, Vec<Formula>, Vec<Given>), Fault>
    ensures bits { IfOk result (λ r. r.0.bits ≡ length bits.now.names.items) }
    ensures layout { IfOk result (λ r. r.0.layout ≡ bits.now.layout) }
    ensures allowed { IfOk result (λ r. r.0.allowed ≡ reading.allowed) }
    ensures limits { IfOk result (λ r. r.0.limits ≡ reading.limits) }
    ensures table { IfOk result (λ r. r.0.table.items ≡ map (λ l. l.0) reading.table.items) }
    ensures starts { IfOk result (λ r. r.1 ≡ reading.starts) }
    ensures helpers { IfOk result (λ r. r.2 ≡ reading.helpers) }
    ensures rows { IfOk result (λ r. r.3 ≡ reading.rows) }
{
    let table = reading
        .table
        .into_iter()
        .map(|(line, _)| line)
        .collect(alloc)?;
    let rule = Rule::new(
        alloc,
        bits.count(),
        bits.layout,
        reading.allowed,
        reading.limits,
        table,
    )?;
    Ok((rule, reading.starts, reading.helpers, reading.rows))
}

/// The rule that statements make, none of which is left out. Fails at the first thing that is wrong in them, and for memory.
pub fn rule_of(
    alloc: Global,
    bits: &Bits<'_>,
    lines: &[rule_file::tree::Line],
) -> Result<Rule, Fault>
    ensures bits { IfOk result (λ r. r.bits ≡ length bits.now.names.items) }
    ensures layout { IfOk result (λ r. r.layout ≡ bits.now.layout) }
    ensures patterns { IfOk result (λ r. r.allowed.items ≡ allowed_in bits.now lines.now) }
    ensures limits { IfOk result (λ r. AreLimits bits.now lines.now r.limits.items) }
    ensures lines { IfOk result (λ r. r.table.items ≡ table_in bits.now lines.now) }
    ensures once { OnOk result (AllNameOnce bits.now lines.now) }
{
    let (rule, _, _, _) = made(alloc, bits, reading_of(alloc, bits, lines)?)?;
    Ok(rule)
}

/// Reads a rule file: each statement of the text is in the file, and each that makes the rule, says how a run may begin, may help to keep a claim or gives a row is in these. Fails at the first thing that is
/// wrong in it, and for memory.
pub fn source_of(alloc: Global, text: &str) -> Result<Source<'_>, Fault>
    ensures file { IfOk result (λ s. Covers text.now 0 (file_tokens s.file) (length text.now)) }
    ensures text { IfOk result (λ s. s.bits.text.now ≡ text.now) }
    ensures names { IfOk result (λ s. map (λ n. n.now) s.bits.names.items ≡ map (λ t. bytes_of text.now t) s.file.bits.items) }
    ensures layout { IfOk result (λ s. s.bits.layout ≡ layout_of s.file.ring) }
    ensures bits { IfOk result (λ s. s.rule.bits ≡ length s.bits.names.items) }
    ensures ring { IfOk result (λ s. s.rule.layout ≡ s.bits.layout) }
    ensures patterns { IfOk result (λ s. s.rule.allowed.items ≡ allowed_in s.bits s.file.lines.items) }
    ensures limits { IfOk result (λ s. AreLimits s.bits s.file.lines.items s.rule.limits.items) }
    ensures starts { IfOk result (λ s. AreStarts s.bits s.file.lines.items s.starts.items) }
    ensures helpers { IfOk result (λ s. AreHelpers s.bits s.file.lines.items s.helpers.items) }
    ensures lines { IfOk result (λ s. s.rule.table.items ≡ table_in s.bits s.file.lines.items) }
    ensures once { IfOk result (λ s. AllNameOnce s.bits s.file.lines.items) }
    ensures rows { IfOk result (λ s. AreRows s.bits s.file.lines.items s.rows.items) }
{
    let file = read(alloc, text)?;
    let bits = Bits::new(alloc, text, layout_of(&file), &file.bits)?;
    let reading = reading_of(alloc, &bits, &file.lines)?;
    let (rule, starts, helpers, rows) = made(alloc, &bits, reading)?;
    Ok(Source {
        bits,
        file,
        rule,
        starts,
        helpers,
        rows,
    })
}
