// Columns merged into patterns, by a decision tree over the sets.
//
// Of a state there is given where each column leads. Beginning with set 0, the columns are parted into those without the set and those with it. Where both halves lead the same, column by column, the set does not matter: it is X, and one half is looked at further. Else the half without it is followed, and then the half with it. A path through all sets is a pattern: what its letters leave open leads to one state.
// Invariant: each column that fits the letters of the path down to a node, and no other, leads by the transitions that the node adds as its own entry of the node's row says, where an entry stands for the column's sets from that node on. So in the end each column fits exactly one pattern.
ghost use Rattle.std.specs.Prelude.{◌≡◌, ℕ, ◌+◌, ◌*◌, ◌%◌, ◌/◌, ◌^◌, ◌<◌, ◌≤◌, [], ◌∷◌, ◌++◌, All, IfOk, OnOk, length, slice_index};
ghost use Rattle.transitions.specs.Patterns.{leads, added, HasLetters};

use crate::pattern::{Letter, Transition};
use std::alloc::{AllocError, Global};

// The row of the columns without the first of their sets, and of those with it.
struct Halves {
    without: Vec<u32>,
    with: Vec<u32>,
}

fn split(alloc: Global, row: &[u32]) -> Result<Halves, AllocError>
    ensures without { IfOk result (λ h. length h.without.items ≡ length row.now / 2) }
    ensures with { IfOk result (λ h. length h.with.items ≡ length row.now / 2) }
    ensures evens { IfOk result (λ h. (j : ℕ) → j < length row.now / 2 → slice_index h.without.items j ≡ slice_index row.now (2 * j)) }
    ensures odds { IfOk result (λ h. (j : ℕ) → j < length row.now / 2 → slice_index h.with.items j ≡ slice_index row.now (2 * j + 1)) }
{
    let mut without = Vec::new(alloc);
    let mut with = Vec::new(alloc);
    for j in 0..row.len() / 2 {
        without.push(row[2 * j])?;
        with.push(row[2 * j + 1])?;
    }
    Ok(Halves { without, with })
}

// The path with one more letter.
fn longer(alloc: Global, path: &[Letter], letter: Letter) -> Result<Vec<Letter>, AllocError>
    ensures { IfOk result (λ p. p.items ≡ path.now ++ letter ∷ []) }
{
    let mut longer = Vec::from_slice(alloc, path)?;
    longer.push(letter)?;
    Ok(longer)
}

// Adds the transitions of the columns that fit the path, by the row of where they lead, which has an entry for each choice of the `sets` sets that are left.
fn follow(
    alloc: Global,
    row: &[u32],
    sets: u32,
    path: &[Letter],
    found: &mut Vec<Transition>,
) -> Result<(), AllocError>
    requires whole { length row.now ≡ 2 ^ sets }
    ensures leads { OnOk result ((a : ℕ) → leads found.new.items a ≡ leads found.old.items a ++ added path.now row.now sets a) }
    ensures letters { OnOk result ((n : ℕ) → length path.now + sets ≡ n → All (HasLetters n) found.old.items → All (HasLetters n) found.new.items) }
{
    if sets == 0 {
        let pattern = Vec::from_slice(alloc, path)?;
        found.push(Transition {
            pattern,
            to: row[0],
        })?;
        return Ok(());
    }
    let Halves { without, with } = split(alloc, row)?;
    if without.as_slice() == with.as_slice() {
        let any = longer(alloc, path, Letter::Any)?;
        return follow(alloc, &without, sets - 1, &any, found);
    }
    let zero = longer(alloc, path, Letter::Zero)?;
    follow(alloc, &without, sets - 1, &zero, found)?;
    let one = longer(alloc, path, Letter::One)?;
    follow(alloc, &with, sets - 1, &one, found)
}

/// The transitions of a state, by the row of where the columns over so many sets lead: each column fits exactly one pattern, and leads where that transition says. Sets of a column behind the first `sets` do not matter.
pub fn transitions(alloc: Global, row: &[u32], sets: u32) -> Result<Vec<Transition>, AllocError>
    requires whole { length row.now ≡ 2 ^ sets }
    ensures leads { IfOk result (λ found. (a : ℕ) → leads found.items a ≡ slice_index row.now (a % 2 ^ sets) ∷ []) }
    ensures letters { IfOk result (λ found. All (HasLetters sets) found.items) }
{
    let mut found = Vec::new(alloc);
    follow(alloc, row, sets, &[], &mut found)?;
    Ok(found)
}
