// Ring claims without parts: those of claims about sets that a ring has, which has no place before another.
ghost use Rattle.std.specs.Prelude.{◌≡◌, MatchOption, ◌≢◌};
ghost use Rattle.ring_claims.specs.Meaning as meaning;

use kinds::atom::Atom;
use kinds::multiple::Multiple;
use kinds::relation::Relation;

/// A ring claim without parts: the first set lies within the second, the set has exactly one place,
/// the place of the second is the next of that of the first, a set has a multiple of so many places,
/// and so many besides.
#[derive(Clone, Copy, Debug, PartialEq, Eq)]
pub enum RingAtom {
    Within(usize, usize),
    Single(usize),
    Next(usize, usize),
    Multiple(Multiple),
}

impl RingAtom {
    /// The claim about sets that has the same sign and numbers, and so the same bytes.
    pub fn atom(self) -> Atom
        ensures { result ≡ meaning.atom_of self }
    {
        match self {
            RingAtom::Within(x, y) => Atom::Related(Relation::Within(x, y)),
            RingAtom::Single(x) => Atom::Related(Relation::Single(x)),
            RingAtom::Next(x, y) => Atom::Related(Relation::Next(x, y)),
            RingAtom::Multiple(m) => Atom::Counted(m),
        }
    }
}

/// The ring claim with the sign of a claim about sets: none with that of before.
pub fn ring_atom(atom: Atom) -> Option<RingAtom>
    ensures { MatchOption result ((a : RingAtom) → meaning.atom_of a ≢ atom) (λ a. meaning.atom_of a ≡ atom) }
{
    match atom {
        Atom::Related(Relation::Within(x, y)) => Some(RingAtom::Within(x, y)),
        Atom::Related(Relation::Single(x)) => Some(RingAtom::Single(x)),
        Atom::Related(Relation::Next(x, y)) => Some(RingAtom::Next(x, y)),
        Atom::Related(Relation::Before(_, _)) => None,
        Atom::Counted(m) => Some(RingAtom::Multiple(m)),
    }
}
