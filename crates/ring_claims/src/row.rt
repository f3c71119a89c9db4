// A ring claim as a row claim about the same sets: each sign stays, but for next, which goes round.
ghost use Rattle.std.specs.Prelude.{◌≡◌, IfOk};
ghost use Rattle.row_claims.specs.Trees as rows;
ghost use Rattle.ring_claims.specs.Trees.{said};
ghost use Rattle.ring_claims.specs.Reading as reading;

use crate::atom::RingAtom;
use crate::tree::RingClaim;
use row_claims::tree::{RowClaim, and, last, next, not, single, some_set};
use std::alloc::{AllocError, Global};

// Set x has one place, and there is no place but the row's last: so the row has one place alone.
fn alone(alloc: Global, x: usize) -> Result<RowClaim, AllocError>
    ensures { IfOk result (λ r. rows.said r ≡ reading.alone x) }
{
    let other = and(alloc, single(x), not(alloc, last(x))?)?;
    let none = not(alloc, some_set(alloc, x, other)?)?;
    and(alloc, single(x), none)
}

// Nothing is behind the place of x, and nothing before that of y.
fn at_seam(alloc: Global, x: usize, y: usize) -> Result<RowClaim, AllocError>
    ensures { IfOk result (λ r. rows.said r ≡ reading.at_seam x y) }
{
    let behind = not(alloc, some_set(alloc, y, next(x, y))?)?;
    let before = not(alloc, some_set(alloc, x, next(x, y))?)?;
    and(alloc, behind, before)
}

// Two sets have one place each, and y's is just behind x's or both are at the seam.
fn around(alloc: Global, x: usize, y: usize) -> Result<RowClaim, AllocError>
    ensures { IfOk result (λ r. rows.said r ≡ reading.around x y) }
{
    let far = not(alloc, next(x, y))?;
    let inside = not(alloc, at_seam(alloc, x, y)?)?;
    let near = not(alloc, and(alloc, far, inside)?)?;
    let rest = and(alloc, single(y), near)?;
    and(alloc, single(x), rest)
}

fn atom_in(alloc: Global, atom: RingAtom) -> Result<RowClaim, AllocError>
    ensures { IfOk result (λ r. rows.said r ≡ reading.atom_in atom) }
{
    match atom {
        RingAtom::Next(x, y) => {
            if x == y {
                alone(alloc, x)
            } else {
                around(alloc, x, y)
            }
        }
        RingAtom::Within(_, _) | RingAtom::Single(_) | RingAtom::Multiple(_) => {
            Ok(RowClaim::Atom(atom.atom()))
        }
    }
}

/// The row claim that holds of a row exactly if the ring claim does of the ring. Fails only if memory
/// runs out.
pub fn in_ring(alloc: Global, claim: &RingClaim) -> Result<RowClaim, AllocError>
    ensures { IfOk result (λ r. rows.said r ≡ reading.in_ring (said claim.now)) }
{
    match claim {
        RingClaim::Atom(a) => atom_in(alloc, *a),
        RingClaim::Not(c) => not(alloc, in_ring(alloc, c)?),
        RingClaim::And(c, d) => {
            let first = in_ring(alloc, c)?;
            let second = in_ring(alloc, d)?;
            and(alloc, first, second)
        }
        RingClaim::Some(x, c) => some_set(alloc, *x, in_ring(alloc, c)?),
    }
}
