// A row claim as a tree, and the row claims that are put together of others.
ghost use Rattle.std.specs.Prelude.{◌≡◌, IfOk};
ghost use Rattle.kinds.specs.declared.atom.Atom.TheVariants.{Related, Counted};
ghost use Rattle.kinds.specs.declared.relation.Relation.TheVariants.{Within, Single, Next, Before};
ghost use Rattle.row_claims.specs.Meaning as rows;
ghost use Rattle.row_claims.specs.Trees.{said};

use kinds::atom::Atom;
use kinds::multiple::Multiple;
use kinds::relation::Relation;
use std::alloc::{AllocError, Global};

/// A claim about rows, each set a number: one without parts, that a set has exactly the row's last
/// place, the opposite of a claim, two together, and that there is a set of places of the row of
/// which one holds.
#[derive(Debug, Drop)]
pub enum RowClaim {
    Atom(Atom),
    Last(usize),
    Not(Box<RowClaim>),
    And(Box<RowClaim>, Box<RowClaim>),
    Some(usize, Box<RowClaim>),
}

/// Set x lies within set y.
pub fn within(x: usize, y: usize) -> RowClaim
    ensures { said result ≡ rows.atom (Related (Within x y)) }
{
    RowClaim::Atom(Atom::Related(Relation::Within(x, y)))
}

/// Set x has exactly one place.
pub fn single(x: usize) -> RowClaim
    ensures { said result ≡ rows.atom (Related (Single x)) }
{
    RowClaim::Atom(Atom::Related(Relation::Single(x)))
}

/// Sets x and y have one place each, and y's comes just behind x's.
pub fn next(x: usize, y: usize) -> RowClaim
    ensures { said result ≡ rows.atom (Related (Next x y)) }
{
    RowClaim::Atom(Atom::Related(Relation::Next(x, y)))
}

/// Sets x and y have one place each, and x's comes before y's.
pub fn before(x: usize, y: usize) -> RowClaim
    ensures { said result ≡ rows.atom (Related (Before x y)) }
{
    RowClaim::Atom(Atom::Related(Relation::Before(x, y)))
}

/// A set has a multiple of so many places, and so many besides.
pub fn multiple(m: Multiple) -> RowClaim
    ensures { said result ≡ rows.atom (Counted m) }
{
    RowClaim::Atom(Atom::Counted(m))
}

/// Set x has exactly the row's last place, or none if the row is empty.
pub fn last(x: usize) -> RowClaim
    ensures { said result ≡ rows.last x }
{
    RowClaim::Last(x)
}

/// The opposite. Fails only if memory runs out.
pub fn not(alloc: Global, c: RowClaim) -> Result<RowClaim, AllocError>
    ensures { IfOk result (λ r. said r ≡ rows.not1 (said c)) }
{
    Ok(RowClaim::Not(Box::new(alloc, c)?))
}

/// Both. Fails only if memory runs out.
pub fn and(alloc: Global, c: RowClaim, d: RowClaim) -> Result<RowClaim, AllocError>
    ensures { IfOk result (λ r. said r ≡ rows.and1 (said c) (said d)) }
{
    Ok(RowClaim::And(Box::new(alloc, c)?, Box::new(alloc, d)?))
}

/// There is a set x of places of the row of which it holds. Fails only if memory runs out.
pub fn some_set(alloc: Global, x: usize, c: RowClaim) -> Result<RowClaim, AllocError>
    ensures { IfOk result (λ r. said r ≡ rows.some x (said c)) }
{
    Ok(RowClaim::Some(x, Box::new(alloc, c)?))
}
