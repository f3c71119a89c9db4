// Whether a claim holds only where a set has exactly one place.
ghost use Rattle.std.specs.Prelude.{◌≡◌};
ghost use Rattle.claims.specs.Trees.{said};
ghost use Rattle.claim_formula.specs.Forced.{forces, relation_forces};

use claims::tree::Claim;
use kinds::atom::Atom;
use kinds::relation::Relation;

fn relation_forces(x: usize, relation: Relation) -> bool
    ensures { result ≡ relation_forces x relation }
{
    match relation {
        Relation::Within(_, _) => false,
        Relation::Single(y) => x == y,
        Relation::Next(y, z) | Relation::Before(y, z) => x == y || x == z,
    }
}

/// Whether one of the claims that are claimed together says that set x has exactly one place.
pub fn forces(x: usize, claim: &Claim) -> bool
    ensures { result ≡ forces x (said claim.now) }
{
    match claim {
        Claim::Atom(Atom::Related(relation)) => relation_forces(x, *relation),
        Claim::Atom(Atom::Counted(_)) => false,
        Claim::Not(_) => false,
        Claim::And(c, d) => forces(x, c) || forces(x, d),
        Claim::Some(y, c) => x != *y && forces(x, c),
    }
}
