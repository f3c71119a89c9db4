// A claim as a tree, and the claims that are put together of others.
ghost use Rattle.std.specs.Prelude.{◌≡◌, IfOk};
ghost use Rattle.claims.specs.Claims.{not1, and1, some, within, single, next, before, multiple};
ghost use Rattle.claims.specs.Trees.{said};

use kinds::atom::Atom;
use kinds::multiple::Multiple;
use kinds::relation::Relation;
use std::alloc::{AllocError, Global};

/// A claim about finite sets of places, each a number: one without parts, the opposite of one, two
/// together, and that there is a set of which one holds.
#[derive(Debug, Drop)]
pub enum Claim {
    Atom(Atom),
    Not(Box<Claim>),
    And(Box<Claim>, Box<Claim>),
    Some(usize, Box<Claim>),
}

/// Set x lies within set y.
pub fn within(x: usize, y: usize) -> Claim
    ensures { said result ≡ within x y }
{
    Claim::Atom(Atom::Related(Relation::Within(x, y)))
}

/// Set x has exactly one place.
pub fn single(x: usize) -> Claim
    ensures { said result ≡ single x }
{
    Claim::Atom(Atom::Related(Relation::Single(x)))
}

/// Sets x and y have one place each, and y's comes just behind x's.
pub fn next(x: usize, y: usize) -> Claim
    ensures { said result ≡ next x y }
{
    Claim::Atom(Atom::Related(Relation::Next(x, y)))
}

/// Sets x and y have one place each, and x's comes before y's.
pub fn before(x: usize, y: usize) -> Claim
    ensures { said result ≡ before x y }
{
    Claim::Atom(Atom::Related(Relation::Before(x, y)))
}

/// A set has a multiple of so many places, and so many besides.
pub fn multiple(m: Multiple) -> Claim
    ensures { said result ≡ multiple m }
{
    Claim::Atom(Atom::Counted(m))
}

/// The opposite.
pub fn not(alloc: Global, c: Claim) -> Result<Claim, AllocError>
    ensures { IfOk result (λ r. said r ≡ not1 (said c)) }
{
    Ok(Claim::Not(Box::new(alloc, c)?))
}

/// Both.
pub fn and(alloc: Global, c: Claim, d: Claim) -> Result<Claim, AllocError>
    ensures { IfOk result (λ r. said r ≡ and1 (said c) (said d)) }
{
    Ok(Claim::And(Box::new(alloc, c)?, Box::new(alloc, d)?))
}

/// There is a set x of which it holds.
pub fn some_set(alloc: Global, x: usize, c: Claim) -> Result<Claim, AllocError>
    ensures { IfOk result (λ r. said r ≡ some x (said c)) }
{
    Ok(Claim::Some(x, Box::new(alloc, c)?))
}
