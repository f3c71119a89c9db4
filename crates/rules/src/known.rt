// Whether patterns, tables and formulas name only what a module and a row have.
ghost use Rattle.std.specs.Prelude.{◌≡◌, ◌+◌, suc, nat_lt, MatchResult, IfOk};
ghost use Rattle.formulas.specs.Names.{names};
ghost use Rattle.rows.specs.RowClaims.{below};
ghost use Rattle.rows.specs.Faults.{asked_ok, literals_ok, patterns_ok, new_ok, news_ok, lines_ok, stays, unchanged};
ghost use Rattle.rows.specs.Limits.{groups_ok, names_of};
ghost use Rattle.rules.specs.declared.known.Unsound.TheVariants.{OutOfMemory};
ghost use Rattle.rules.specs.Sound.{Refused};

use crate::rule::Rule;
use crate::table::entry_of;
use formulas::formula::Formula;
use formulas::free::free_names;
use formulas::name::Name;
use rows::line::{Line, Pattern};
use rows::rule::{Asked, Layout, Literal, NewBit, Side};
use std::alloc::{AllocError, Global};
use thiserror::Error;

/// So many bits a module has at most: one of a claim's 12 sets is the row itself.
pub const MOST_BITS: u8 = 11;

/// Whether bit j is as it was.
pub fn is_kept(new: NewBit, j: u8) -> bool
    ensures { result ≡ stays new j }
{
    match new {
        NewBit::AsWas(Side::Own, i) => i == j,
        _ => false,
    }
}

/// Whether no line changes bit j.
pub fn is_unchanged(table: &[Line], j: u8) -> bool
    ensures { result ≡ unchanged table.now j }
{
    let [line, rest @ ..] = table else {
        return true;
    };
    is_kept(entry_of(line.bits(), j), j) && is_unchanged(rest, j)
}

fn is_asked(bits: u8, asked: Asked) -> bool
    ensures { result ≡ asked_ok (below bits) asked }
{
    match asked {
        Asked::There => true,
        Asked::Bit(j) => j < bits,
    }
}

/// Whether the literals name bits below `bits` alone.
pub fn has_literals(bits: u8, ps: &[Literal]) -> bool
    ensures { result ≡ literals_ok (below bits) ps.now }
{
    let [p, rest @ ..] = ps else {
        return true;
    };
    is_asked(bits, p.asked) && has_literals(bits, rest)
}

/// Whether the patterns name bits below `bits` alone.
pub fn has_patterns(bits: u8, patterns: &[Pattern]) -> bool
    ensures { result ≡ patterns_ok (below bits) patterns.now }
{
    let [p, rest @ ..] = patterns else {
        return true;
    };
    has_literals(bits, p.literals()) && has_patterns(bits, rest)
}

fn is_new(bits: u8, new: NewBit) -> bool
    ensures { result ≡ new_ok (below bits) new }
{
    match new {
        NewBit::Fixed(_) => true,
        NewBit::AsWas(_, j) => j < bits,
    }
}

fn has_news(bits: u8, news: &[NewBit]) -> bool
    ensures { result ≡ news_ok (below bits) news.now }
{
    let [new, rest @ ..] = news else {
        return true;
    };
    is_new(bits, *new) && has_news(bits, rest)
}

/// Whether the table names bits below `bits` alone.
pub fn has_lines(bits: u8, table: &[Line]) -> bool
    ensures { result ≡ lines_ok (below bits) table.now }
{
    let [line, rest @ ..] = table else {
        return true;
    };
    has_literals(bits, line.when()) && has_news(bits, line.bits()) && has_lines(bits, rest)
}

/// Whether the names are of sets, with numbers below n.
pub fn are_groups(n: u32, names: &[Name]) -> bool
    ensures { result ≡ groups_ok (λ x. nat_lt x n) names.now }
{
    match names {
        [] => true,
        [Name::OfPlace(_), ..] => false,
        [Name::OfGroup(x), rest @ ..] => *x < n && are_groups(n, rest),
    }
}

/// The names that are free in the formulas, in the order in which they stand there.
pub fn all_names(alloc: Global, formulas: &[Formula]) -> Result<Vec<Name>, AllocError>
    ensures { IfOk result (λ found. found.items ≡ names_of formulas.now) }
{
    let [formula, rest @ ..] = formulas else {
        return Ok(Vec::new(alloc));
    };
    let mut found = free_names(alloc, formula)?;
    let others = all_names(alloc, rest)?;
    found.extend_from_slice(&others)?;
    Ok(found)
}

/// Why there is no such rule.
#[derive(Clone, Copy, Debug, PartialEq, Eq, Error)]
pub enum Unsound {
    #[error("a module has one bit at least, and eleven at most")]
    Bits,
    #[error("a bit is named that a module has not")]
    UnknownBit,
    #[error("a limit names what is no set of the row's places")]
    UnknownName,
    #[error("out of memory")]
    OutOfMemory,
}

impl From<AllocError> for Unsound {
    ghost from_gives = { λ _ e. e ≡ OutOfMemory };

    fn from(_e: AllocError) -> Unsound {
        Unsound::OutOfMemory
    }
}

impl Rule {
    /// The rule of these parts, whose rows lie so, if its patterns and its table name only bits that a module of so many bits has, and its limits only sets of the row; else why there is none.
    pub fn new(
        alloc: Global,
        bits: u8,
        layout: Layout,
        allowed: Vec<Pattern>,
        limits: Vec<Formula>,
        table: Vec<Line>,
    ) -> Result<Rule, Unsound>
        ensures { MatchResult result (λ r. (r.bits ≡ bits) × (r.layout ≡ layout) × (r.allowed ≡ allowed) × (r.limits ≡ limits) × (r.table ≡ table)) (Refused bits allowed.items limits.items table.items) }
    {
        if bits < 1 || bits > MOST_BITS {
            return Err(Unsound::Bits);
        }
        if !has_patterns(bits, &allowed) || !has_lines(bits, &table) {
            return Err(Unsound::UnknownBit);
        }
        let names = all_names(alloc, &limits)?;
        if !are_groups(bits as u32 + 1, &names) {
            return Err(Unsound::UnknownName);
        }
        Ok(Rule {
            bits,
            layout,
            allowed,
            limits,
            table,
        })
    }

    /// Whether the pattern names only bits that a module has.
    pub fn has_bits_of(&self, pattern: &[Literal]) -> bool
        ensures { result ≡ literals_ok (below self.now.bits) pattern.now }
    {
        has_literals(self.bits, pattern)
    }

    /// Whether the formula names only sets of the row and of the row after one step: below the number of bits the places whose module has that bit, that number itself the row's places, and behind it the places whose module has the first bit after the step, the second and so on.
    pub fn has_names_of(&self, alloc: Global, formula: &Formula) -> Result<bool, AllocError>
        ensures { IfOk result (λ known. known ≡ groups_ok (λ x. nat_lt x (suc (self.now.bits + self.now.bits))) (names formula.now)) }
    {
        let names = free_names(alloc, formula)?;
        let most = 2 * self.bits as u32;
        Ok(are_groups(most + 1, &names))
    }
}
