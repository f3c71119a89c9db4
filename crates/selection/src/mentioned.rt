// The sets that a claim without parts mentions.
ghost use Rattle.std.specs.Prelude.{◌≡◌, ℕ, ◌≤◌};
ghost use Rattle.kinds.specs.Atoms.{sets_of};
ghost use Rattle.narrowing.specs.Mentioned.{named};
ghost use Rattle.selection.specs.Selections.{chosen};

use crate::selection::Selection;
use kinds::atom::Atom;
use words::bits::Set;

/// The sets that the claim mentions, which is about `of` sets.
pub fn mentioned(atom: Atom, of: u32) -> Selection
    requires named { sets_of atom ≤ of }
    requires few { of ≤ 12 }
    ensures of { result.of ≡ of }
    ensures chosen { (z : ℕ) → chosen result z ≡ named atom z }
{
    match atom {
        Atom::Related(relation) => {
            let (x, y) = relation.sets();
            Selection::pair(Set(x as u8), Set(y as u8), of)
        }
        Atom::Counted(multiple) => {
            Selection::pair(Set(multiple.set as u8), Set(multiple.set as u8), of)
        }
    }
}
