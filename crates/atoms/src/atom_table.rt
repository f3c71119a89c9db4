// The exact table of a claim without parts: its machine's states are searched, and those that are
// alike joined. The machine looks at one or two sets alone, so it is searched over the columns of
// these.
// Two sets that are one make states that are alike, as for `next x x`, so whether the claim fits is
// known only once they are joined.
ghost use Rattle.std.specs.Prelude.{◌≡◌, ℕ, ◌+◌, ◌*◌, ◌^◌, ◌≤◌, length, MatchOption};
ghost use Rattle.claims.specs.Claims.{atom as claim};
ghost use Rattle.claims.specs.Sizes.{Fits};
ghost use Rattle.kinds.specs.Atoms.{sets_of};
ghost use Rattle.narrowing.specs.Mentioned.{named};
ghost use Rattle.selection.specs.Selections.{chosen, count};
ghost use Rattle.atoms.specs.AtomTable.{Exact};

use crate::kind::Kind;
use crate::memory::States;
use kinds::atom::Atom;
use kinds::residual::Residual;
use minimize::memory::Parts;
use minimize::minimize::minimize;
use selection::selection::Selection;
use tables::sheet::{Shape, Sheet};
use worklist::explore::explore;

/// As many states of a machine are reached at most.
pub const STATES: usize = 16;

/// The exact table of the claim, over the columns of its own sets, written on the sheet: how many
/// classes it has, or that they are more than the sheet has room for.
/// Scratch: a row for each of 16 states, six words for each, and one for each pair of them. What it
/// held before does not matter.
pub fn atom_table(
    atom: Atom,
    sets: Selection,
    scratch: &mut [u32],
    sheet: &mut Sheet,
) -> Option<usize>
    requires about { sets_of atom ≤ sets.of }
    requires mentioned { (z : ℕ) → chosen sets z ≡ named atom z }
    requires columns { count sets ≤ sheet.old.shape.sets }
    requires scratch { 16 * 2 ^ count sets + 352 ≤ length scratch.old }
    ensures { MatchOption result (Fits sets.of sheet.old.shape.most (claim atom) → ⊥) (Exact sets sheet.old sheet.new (claim atom)) }
{
    match atom {
        Atom::Related(relation) => table(relation, sets, &mut [Residual::Dead; 17], scratch, sheet),
        Atom::Counted(multiple) => table(multiple, sets, &mut [0; 17], scratch, sheet),
    }
}

// The same of a claim of any kind; its machine's states are found in `found`.
fn table<K: Kind>(
    kind: K,
    sets: Selection,
    found: &mut [K::State],
    scratch: &mut [u32],
    sheet: &mut Sheet,
) -> Option<usize>
    requires about { sets_of (K.atom kind) ≤ sets.of }
    requires mentioned { (z : ℕ) → chosen sets z ≡ named (K.atom kind) z }
    requires columns { count sets ≤ sheet.old.shape.sets }
    requires found { 17 ≤ length found.old }
    requires scratch { 16 * 2 ^ count sets + 352 ≤ length scratch.old }
    ensures { MatchOption result (Fits sets.of sheet.old.shape.most (claim (K.atom kind)) → ⊥) (Exact sets sheet.old sheet.new (claim (K.atom kind))) }
{
    let shape = Shape::new(STATES, sets.count());
    let (rows, rest) = scratch.split_at_mut(STATES * shape.width);
    let (accept, rest) = rest.split_at_mut(STATES);
    let (parting, index) = rest.split_at_mut(5 * STATES);
    let mut reached = Sheet {
        rows,
        accept,
        shape,
    };
    let mut states = States { kind, sets, found };
    let mut parts = Parts::cut(STATES, parting, index);
    let count = explore(&mut states, &mut reached)?;
    minimize(reached.table(count), &mut parts, sheet)
}
