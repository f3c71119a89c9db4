// A ring claim as a tree, and the ring claims that are put together of others.
ghost use Rattle.std.specs.Prelude.{◌≡◌, IfOk};
ghost use Rattle.ring_claims.specs.declared.atom.RingAtom.TheVariants.{Within, Single, Next, Multiple as Counted};
ghost use Rattle.ring_claims.specs.Meaning as rings;
ghost use Rattle.ring_claims.specs.Trees.{said};

use crate::atom::RingAtom;
use kinds::multiple::Multiple;
use std::alloc::{AllocError, Global};

/// A claim about rings, each set a number: one without parts, the opposite of a claim, two together,
/// and that there is a set of places of the ring of which one holds.
#[derive(Debug, Drop)]
pub enum RingClaim {
    Atom(RingAtom),
    Not(Box<RingClaim>),
    And(Box<RingClaim>, Box<RingClaim>),
    Some(usize, Box<RingClaim>),
}

/// Set x lies within set y.
pub fn within(x: usize, y: usize) -> RingClaim
    ensures { said result ≡ rings.atom (Within x y) }
{
    RingClaim::Atom(RingAtom::Within(x, y))
}

/// Set x has exactly one place.
pub fn single(x: usize) -> RingClaim
    ensures { said result ≡ rings.atom (Single x) }
{
    RingClaim::Atom(RingAtom::Single(x))
}

/// Sets x and y have one place each, and y's is the next of x's: of the last place that is the first.
pub fn next(x: usize, y: usize) -> RingClaim
    ensures { said result ≡ rings.atom (Next x y) }
{
    RingClaim::Atom(RingAtom::Next(x, y))
}

/// A set has a multiple of so many places, and so many besides.
pub fn multiple(m: Multiple) -> RingClaim
    ensures { said result ≡ rings.atom (Counted m) }
{
    RingClaim::Atom(RingAtom::Multiple(m))
}

/// The opposite. Fails only if memory runs out.
pub fn not(alloc: Global, c: RingClaim) -> Result<RingClaim, AllocError>
    ensures { IfOk result (λ r. said r ≡ rings.not1 (said c)) }
{
    Ok(RingClaim::Not(Box::new(alloc, c)?))
}

/// Both. Fails only if memory runs out.
pub fn and(alloc: Global, c: RingClaim, d: RingClaim) -> Result<RingClaim, AllocError>
    ensures { IfOk result (λ r. said r ≡ rings.and1 (said c) (said d)) }
{
    Ok(RingClaim::And(Box::new(alloc, c)?, Box::new(alloc, d)?))
}

/// There is a set x of places of the ring of which it holds. Fails only if memory runs out.
pub fn some_set(alloc: Global, x: usize, c: RingClaim) -> Result<RingClaim, AllocError>
    ensures { IfOk result (λ r. said r ≡ rings.some x (said c)) }
{
    Ok(RingClaim::Some(x, Box::new(alloc, c)?))
}
