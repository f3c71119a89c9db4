// Memory in which the states of a machine are found.
ghost use Rattle.std.specs.Prelude.{◌≤◌, length};
ghost use Rattle.kinds.specs.Atoms.{sets_of};

use crate::kind::Kind;
use selection::selection::Selection;

/// The states that the machine of a claim reaches over words of the columns of these sets: number i
/// is found[i].
/// There are at most sixteen, and there is room for one more.
#[derive(Drop)]
pub struct States<'m, K: Kind> {
    pub kind: K,
    pub sets: Selection,
    pub found: &'m mut [K::State],
    ghost named: { sets_of (K.atom kind) ≤ sets.of },
    ghost room: { 17 ≤ length found.now },
}
