// An automaton that reads words of columns.
ghost use Rattle.std.specs.Prelude.{◌≡◌, ℕ, ◌*◌, ◌^◌, ◌<◌, ◌≤◌, ◌==◌, length, map, slice_index, IfOk};
ghost use Rattle.narrowing.specs.Wide.{wide};
ghost use Rattle.selection.specs.Selections.{chosen, count};
ghost use Rattle.tables.specs.Cells.{entry};
ghost use Rattle.tables.specs.View.{moves, accepting};

use crate::widen::{narrow_columns, rows_by};
use selection::selection::Selection;
use std::alloc::{AllocError, Global};
use tables::cells::WordTable;

/// An automaton over words of `sets` sets. Its states are numbers from 0, the start; `rows` has a
/// row for each state, in it the state to which each of the 2^sets columns leads, and `accepting`
/// whether the state accepts.
#[derive(Debug, Drop)]
pub struct Automaton {
    pub sets: u32,
    pub rows: Vec<u32>,
    pub accepting: Vec<bool>,
    pub ghost narrow: { sets ≤ 12 },
    pub ghost full: { length rows.items ≡ length accepting.items * 2 ^ sets },
    pub ghost below: { (q a : ℕ) → q < length accepting.items → a < 2 ^ sets → entry rows.items (2 ^ sets) q a < length accepting.items },
}

// Which classes accept: 1 says that a class does.
fn ends(alloc: Global, accept: &[u32]) -> Result<Vec<bool>, AllocError>
    ensures { IfOk result (λ v. v.items ≡ map (λ x. x == 1) accept.now) }
{
    accept.iter().map(|end| *end == 1).collect(alloc)
}

impl Automaton {
    ghost use Rattle.minimal.specs.View.{states, leads, accepts};

    /// An automaton of its own over the words of all sets that is as the table, which lies in lent
    /// memory and is over the columns of the selection's sets: each column leads where its narrow
    /// one does.
    pub fn of_table(alloc: Global, t: WordTable, sets: Selection) -> Result<Automaton, AllocError>
        requires few { t.table.classes < 2 ^ 32 }
        requires columns { t.sets ≡ count sets }
        ensures sets { IfOk result (λ s. s.sets ≡ sets.of) }
        ensures states { IfOk result (λ s. states s ≡ t.entry.table.classes) }
        ensures leads { IfOk result (λ s. (q a : ℕ) → q < t.entry.table.classes → a < 2 ^ sets.of → leads s q a ≡ wide sets.of (chosen sets) (moves t.entry.table) q a) }
        ensures accepts { IfOk result (λ s. (q : ℕ) → q < t.entry.table.classes → accepts s q ≡ accepting t.entry.table q) }
    {
        let columns = narrow_columns(alloc, sets)?;
        let rows = rows_by(alloc, t.table, &columns)?;
        let accepting = ends(alloc, &t.table.accept[..t.table.classes])?;
        Ok(Automaton {
            sets: sets.of,
            rows,
            accepting,
        })
    }

    /// How many states it has.
    pub fn states(&self) -> usize
        ensures { result ≡ states self.now }
    {
        self.accepting.len()
    }

    /// Whether state q accepts.
    pub fn accepts(&self, q: usize) -> bool
        requires { q < states self.now }
        ensures { result ≡ accepts self.now q }
    {
        self.accepting[q]
    }

    /// The states to which the columns lead from state q, in the order of the columns.
    pub fn row(&self, q: usize) -> &[u32]
        requires { q < states self.now }
        ensures columns { length result.now ≡ 2 ^ self.now.sets }
        ensures leads { (a : ℕ) → a < 2 ^ self.now.sets → slice_index result.now a ≡ leads self.now q a }
    {
        let width = 1usize << self.sets;
        let from = q * width;
        &self.rows[from..from + width]
    }
}
