// Claims about whole rows: that sets are a row, that it has a module, that there are sets for some bits of the row after.
ghost use Rattle.std.specs.Prelude.{◌≡◌, IfOk};
ghost use Rattle.claims.specs.Trees.{said};
ghost use Rattle.rows.specs.RowClaims.{no_hole, whole, is_row, has_module};
ghost use Rattle.rows.specs.Faults.{some_row};

use claims::tree::{Claim, and, next, not, single, some_set, within};
use std::alloc::{AllocError, Global};

// No place of r has before it a place that is none of r.
fn no_hole(alloc: Global, r: usize, y: usize, z: usize) -> Result<Claim, AllocError>
    ensures { IfOk result (λ c. said c ≡ no_hole r y z) }
{
    let outside = not(alloc, within(y, r))?;
    let hole = and(alloc, within(z, r), outside)?;
    let holes = and(alloc, next(y, z), hole)?;
    let found = some_set(alloc, y, some_set(alloc, z, holes)?)?;
    not(alloc, found)
}

// Set r has no hole, and the sets below k are within it.
fn whole(alloc: Global, k: usize, r: usize, z: usize) -> Result<Claim, AllocError>
    ensures { IfOk result (λ c. said c ≡ whole k r z) }
{
    if k == 0 {
        return no_hole(alloc, r, 0, z);
    }
    let others = whole(alloc, k - 1, r, z)?;
    and(alloc, within(k - 1, r), others)
}

/// The claim that sets 0 to `bits` are a row of modules: set `bits` begins at place 0 and has no hole, and the others lie within it.
pub fn is_row(alloc: Global, bits: u8) -> Result<Claim, AllocError>
    ensures { IfOk result (λ c. said c ≡ is_row bits) }
{
    let b = bits as usize;
    let further = if bits == 1 { 2 } else { 1 };
    whole(alloc, b, b, further)
}

/// The claim that a row whose places are set r has a module.
pub fn has_module(alloc: Global, r: usize) -> Result<Claim, AllocError>
    ensures { IfOk result (λ c. said c ≡ has_module r) }
{
    let place = and(alloc, single(0), within(0, r))?;
    some_set(alloc, 0, place)
}

/// The claim holds for some sets within the row, one for each of the listed bits of the row after: set `bits + 1 + j` for bit j.
pub fn some_row(alloc: Global, bits: u8, js: &[u8], claim: Claim) -> Result<Claim, AllocError>
    ensures { IfOk result (λ c. said c ≡ some_row bits js.now (said claim)) }
{
    let [j, rest @ ..] = js else {
        return Ok(claim);
    };
    let b = bits as usize;
    let y = b + 1 + *j as usize;
    let others = some_row(alloc, bits, rest, claim)?;
    let within_row = and(alloc, within(y, b), others)?;
    some_set(alloc, y, within_row)
}
