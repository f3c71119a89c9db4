// The states of an automaton with their transitions, over sets that have names.
ghost use Rattle.std.specs.Prelude.{◌≡◌, ◌≢◌, ℕ, ◌%◌, ◌^◌, ◌<◌, ◌≤◌, true, false, length, min, slice_index, MatchResult};
ghost use Rattle.minimal.specs.View.{states};
ghost use Rattle.state_diagram.specs.Drawn.{DrawnState, Drawn, Unnamed};
ghost use Rattle.state_diagram.specs.declared.diagram.Undrawn.TheVariants.{OutOfMemory};

use minimal::automaton::Automaton;
use std::alloc::{AllocError, AllocFailed, Global};
use thiserror::Error;
use transitions::pattern::Transition;
use transitions::transitions::transitions;

/// A state: whether it accepts words that end in it, and where the columns lead from it.
#[derive(Debug, Drop)]
pub struct State {
    pub accepts: bool,
    pub transitions: Vec<Transition>,
}

/// The states of an automaton, the start first. A pattern's letters stand in the order of the names; of a name for which it has no letter it says nothing.
#[derive(Debug, Drop)]
pub struct StateDiagram<'n, 't> {
    pub names: &'n [&'t str],
    pub states: Vec<State>,
}

/// Why there is no diagram: where a column leads depends on a set that has no name; there was no memory.
#[derive(Debug, Drop, Error)]
pub enum Undrawn {
    #[error("the automaton depends on a set that has no name")]
    Unnamed,
    #[error("out of memory")]
    OutOfMemory,
}

impl From<AllocError> for Undrawn {
    ghost from_gives = { λ _ e. e ≡ OutOfMemory };

    fn from(_e: AllocError) -> Undrawn {
        Undrawn::OutOfMemory
    }
}

impl<T: Drop> From<AllocFailed<T>> for Undrawn {
    ghost from_gives = { λ _ e. e ≡ OutOfMemory };

    fn from(_e: AllocFailed<T>) -> Undrawn {
        Undrawn::OutOfMemory
    }
}

// Whether each column leads where the column leads that has its first `named` sets alone.
fn is_named(row: &[u32], named: u32) -> bool
    requires wide { 2 ^ named ≤ length row.now }
    requires small { named ≤ 12 }
    ensures named { result ≡ true → (a : ℕ) → a < length row.now → slice_index row.now a ≡ slice_index row.now (a % 2 ^ named) }
    ensures unnamed { result ≡ false → (a : ℕ) × (a < length row.now) × (slice_index row.now a ≢ slice_index row.now (a % 2 ^ named)) }
{
    let width = 1usize << named;
    for a in 0..row.len() {
        if row[a] != row[a % width] {
            return false;
        }
    }
    true
}

// State q with its transitions, whose patterns have a letter for each of the first `named` sets.
fn state_of(alloc: Global, automaton: &Automaton, q: usize, named: u32) -> Result<State, Undrawn>
    requires state { q < states automaton.now }
    requires sets { named ≤ automaton.now.sets }
    ensures { MatchResult result (DrawnState automaton.now named q) (Unnamed automaton.now named) }
{
    let row = automaton.row(q);
    if !is_named(row, named) {
        return Err(Undrawn::Unnamed);
    }
    let transitions = transitions(alloc, &row[..1usize << named], named)?;
    let accepts = automaton.accepts(q);
    Ok(State {
        accepts,
        transitions,
    })
}

/// The diagram of an automaton whose sets have these names, in their order; sets behind the last name have none, and then nothing may depend on them. Names behind the last set stand for sets on which nothing depends.
pub fn state_diagram<'n, 't>(
    alloc: Global,
    automaton: &Automaton,
    names: &'n [&'t str],
) -> Result<StateDiagram<'n, 't>, Undrawn>
    ensures { MatchResult result (λ d. Drawn automaton.now (min (length names.now) automaton.now.sets) d.states.items) (Unnamed automaton.now (min (length names.now) automaton.now.sets)) }
{
    let named = names.len().min(automaton.sets as usize) as u32;
    let mut states = Vec::new(alloc);
    for q in 0..automaton.states() {
        let state = state_of(alloc, automaton, q, named)?;
        states.push(state)?;
    }
    Ok(StateDiagram { names, states })
}
