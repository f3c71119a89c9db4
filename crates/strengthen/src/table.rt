// The automaton that tells of which rows a formula holds.
ghost use Rattle.std.specs.Prelude.{◌≡◌, ◌<◌, IfOk, IfSome, IsTrue};
ghost use Rattle.words.specs.Words.{Columns};
ghost use Rattle.words.specs.Runs.{run};
ghost use Rattle.keeping.specs.Breaches.{names_ok};
ghost use Rattle.minimal.specs.View.{states, leads, accepts};
ghost use Rattle.rows.specs.RowClaims.{marked};
ghost use Rattle.strengthen.specs.Marks.{AreTables, Recognizes};

use crate::listed::Listed;
use claims::encode::{Refusal, encode};
use formulas::formula::Formula;
use minimal::automaton::Automaton;
use minimal::automaton_of::automaton_of;
use minimal::refusal;
use rules::claim::row_with;
use rules::formula::of_formula;
use rules::rule::Rule;
use std::alloc::{AllocError, Global};

/// The automaton of the formula, where at most so many classes may be told apart; none where its claim is too large. It fails for want of memory alone.
pub fn table_of(
    alloc: Global,
    rule: &Rule,
    formula: &Formula,
    most: u32,
) -> Result<Option<Automaton>, AllocError>
    requires names { IsTrue (names_ok rule.now.bits formula.now) }
    ensures { IfOk result (λ o. IfSome o (Recognizes rule.now.bits formula.now)) }
{
    let said = of_formula(alloc, rule, &[], formula)?;
    let claim = row_with(alloc, rule, said)?;
    let bytes = match encode(alloc, &claim, rule.bits as usize + 1) {
        Ok(bytes) => bytes,
        Err(Refusal::OutOfMemory) => return Err(AllocError),
        Err(Refusal::TooManyBytes(_) | Refusal::TooManySets(_)) => return Ok(None),
    };
    match automaton_of(alloc, &bytes, most) {
        Ok(automaton) => Ok(Some(automaton)),
        Err(refusal::Refusal::OutOfMemory) => Err(AllocError),
        Err(refusal::Refusal::TooLarge(_)) => Ok(None),
        Err(refusal::Refusal::NoClaim) => unreachable!(),
    }
}

/// The automata of the claim and of each of the list.
pub fn tables_of(
    alloc: Global,
    given: Listed<'_, '_>,
    most: u32,
) -> Result<Vec<Option<Automaton>>, AllocError>
    ensures { IfOk result (λ ts. AreTables given.entry ts.items) }
{
    let mut tables = Vec::new(alloc);
    for j in 0..given.helpers.len() + 1 {
        tables.push(table_of(alloc, given.keeping.rule, given.claim(j), most)?)?;
    }
    Ok(tables)
}

/// Whether the automaton accepts the row, of modules of so many bits.
/// Invariant: state q is where the modules before module i lead.
pub fn accepts_row(automaton: &Automaton, bits: u8, row: &[u32]) -> bool
    requires bits { bits < automaton.now.sets }
    requires start { 0 < states automaton.now }
    requires columns { Columns bits row.now }
    ensures { result ≡ accepts automaton.now (run (leads automaton.now) 0 (marked bits row.now)) }
{
    let mark = 1u32 << bits;
    let mut q = 0;
    for (i, module) in row.iter().enumerate() {
        q = automaton.row(q)[(mark + *module) as usize] as usize;
    }
    automaton.accepts(q)
}
