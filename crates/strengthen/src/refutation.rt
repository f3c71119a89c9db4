// A row and the row after it, as they refute choices: all that is asked of the first holds, and something of it does not of the second.
ghost use Rattle.std.specs.Prelude.{◌≡◌, true, length, IfOk};
ghost use Rattle.words.specs.Words.{Columns};
ghost use Rattle.rows.specs.Rows.{step};
ghost use Rattle.strengthen.specs.Listed.{Below, KeptWith};
ghost use Rattle.strengthen.specs.Marks.{AreMarks, AreTables, IsRefutation};

use crate::listed::Listed;
use crate::marks::{Mark, chosen_fails, chosen_hold, marks_of};
use minimal::automaton::Automaton;
use simulate::row::step;
use std::alloc::{AllocError, Global};

/// The marks of a row, and those of the row after it.
#[derive(Debug, Drop)]
pub struct Refutation {
    pub before: Vec<Mark>,
    pub after: Vec<Mark>,
}

impl Refutation {
    /// What a row refutes. Fails for memory.
    pub fn of_row(
        alloc: Global,
        given: Listed<'_, '_>,
        tables: &[Option<Automaton>],
        row: &[u32],
    ) -> Result<Refutation, AllocError>
        requires tables { AreTables given tables.now }
        requires columns { Columns given.keeping.now.rule.now.bits row.now }
        ensures refutation { IfOk result (IsRefutation given.entry) }
        ensures after { IfOk result (λ r. AreMarks given.entry (step given.entry.keeping.now.rule.now.layout given.entry.keeping.now.rule.now.bits given.entry.keeping.now.rule.now.table.items row.now) r.after.items) }
    {
        let rule = given.keeping.rule;
        let after = step(alloc, rule.layout, rule.bits, &rule.table, row)?;
        Ok(Refutation {
            before: marks_of(alloc, given, tables, row)?,
            after: marks_of(alloc, given, tables, &after)?,
        })
    }

    /// Whether the claim is known not to be kept with these of the list: all of them hold of the row, and one of them does not of the row after.
    pub fn refutes(&self, given: Listed<'_, '_>, choice: &[usize]) -> bool
        requires marks { IsRefutation given self.now }
        requires below { Below (length given.helpers.now) choice.now }
        ensures { result ≡ true → KeptWith given.entry choice.now → ⊥ }
    {
        let holds = self.before[0] == Mark::Holds && chosen_hold(given, &self.before, choice);
        let fails = self.after[0] == Mark::Fails || chosen_fails(given, &self.after, choice);
        holds && fails
    }
}
