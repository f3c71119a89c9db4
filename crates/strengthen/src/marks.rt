// Of which claims it is known that they hold of a row.
ghost use Rattle.std.specs.Prelude.{◌≡◌, ◌<◌, suc, true, length, IfOk, IfSome};
ghost use Rattle.words.specs.Words.{Word, Columns};
ghost use Rattle.formulas.specs.declared.formula.Formula.{Formula};
ghost use Rattle.minimal.specs.View.{states};
ghost use Rattle.strengthening.specs.Choices.{AllHold, chosen};
ghost use Rattle.strengthen.specs.Listed.{Below, claim_at};
ghost use Rattle.strengthen.specs.Marks.{AreMarks, AreTables, IsMark, Recognizes};

use crate::listed::Listed;
use crate::table::accepts_row;
use minimal::automaton::Automaton;
use std::alloc::{AllocError, Global};

/// A claim holds of a row, it does not, or that is not known, since its automaton is too large.
#[derive(Clone, Copy, Debug, PartialEq, Eq)]
pub enum Mark {
    Holds,
    Fails,
    Unknown,
}

// The mark by the automaton, if there is one.
fn mark_by(table: Option<&Automaton>, bits: u8, row: &[u32]) -> Mark
    requires table { IfSome table (λ t. (bits < t.now.sets) × (0 < states t.now)) }
    requires columns { Columns bits row.now }
    ensures { (d : Formula) → IfSome table.entry (λ t. Recognizes bits d t.now) → IsMark bits d row.now result }
{
    let Some(table) = table else {
        return Mark::Unknown;
    };
    if accepts_row(table, bits, row) {
        Mark::Holds
    } else {
        Mark::Fails
    }
}

/// The marks of a row: of the claim, and of each of the list. Fails for memory.
pub fn marks_of(
    alloc: Global,
    given: Listed<'_, '_>,
    tables: &[Option<Automaton>],
    row: &[u32],
) -> Result<Vec<Mark>, AllocError>
    requires tables { AreTables given tables.now }
    requires columns { Columns given.keeping.now.rule.now.bits row.now }
    ensures { IfOk result (λ ms. AreMarks given.entry row.now ms.items) }
{
    let bits = given.keeping.rule.bits;
    let mut marks = Vec::new(alloc);
    for j in 0..tables.len() {
        marks.push(mark_by(tables[j].as_ref(), bits, row))?;
    }
    Ok(marks)
}

/// Whether all claims with these numbers of the list are marked as holding.
pub fn chosen_hold(given: Listed<'_, '_>, marks: &[Mark], choice: &[usize]) -> bool
    requires many { length marks.now ≡ suc (length given.helpers.now) }
    requires below { Below (length given.helpers.now) choice.now }
    ensures { result ≡ true → (w : Word) → AreMarks given.entry w marks.now → AllHold given.entry.keeping.now.rule.now.bits (chosen given.entry.helpers.now choice.now) w }
{
    let [i, rest @ ..] = choice else {
        return true;
    };
    marks[*i + 1] == Mark::Holds && chosen_hold(given, marks, rest)
}

/// Whether one of the claims with these numbers of the list is marked as failing.
pub fn chosen_fails(given: Listed<'_, '_>, marks: &[Mark], choice: &[usize]) -> bool
    requires many { length marks.now ≡ suc (length given.helpers.now) }
    requires below { Below (length given.helpers.now) choice.now }
    ensures { result ≡ true → (w : Word) → AreMarks given.entry w marks.now → AllHold given.entry.keeping.now.rule.now.bits (chosen given.entry.helpers.now choice.now) w → ⊥ }
{
    let [i, rest @ ..] = choice else {
        return false;
    };
    marks[*i + 1] == Mark::Fails || chosen_fails(given, marks, rest)
}
