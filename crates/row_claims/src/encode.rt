// A row claim's bytes, or why it has none.
// What is needed is counted before anything is written, so that a refusal says how much. Counts
// stop at usize::MAX.
ghost use Rattle.std.specs.Prelude.{◌≡◌, ◌≤◌, ◌++◌, length, min, OnOk, MatchResult};
ghost use Rattle.row_claims.specs.Bytes.{row_bytes, SaysRow};
ghost use Rattle.row_claims.specs.declared.encode.Refusal.TheVariants.{OutOfMemory};
ghost use Rattle.row_claims.specs.Encoded.{sets_needed, Refused};
ghost use Rattle.row_claims.specs.Trees.{said, sets_of};

use crate::claim::{MOST_BYTES, MOST_SETS};
use crate::tree::RowClaim;
use std::alloc::{AllocError, AllocFailed, Global};
use thiserror::Error;

/// Why a row claim has no bytes: the numbers say how many are needed.
#[derive(Debug, Drop, Error)]
pub enum Refusal {
    #[error("{0} bytes are needed, and a row claim has at most 1024")]
    TooManyBytes(usize),
    #[error("{0} sets are needed, and a row claim is about at most 12")]
    TooManySets(usize),
    #[error("out of memory")]
    OutOfMemory,
}

impl From<AllocError> for Refusal {
    ghost from_gives = { λ _ e. e ≡ OutOfMemory };

    fn from(_e: AllocError) -> Refusal {
        Refusal::OutOfMemory
    }
}

impl<T: Drop> From<AllocFailed<T>> for Refusal {
    ghost from_gives = { λ _ e. e ≡ OutOfMemory };

    fn from(_e: AllocFailed<T>) -> Refusal {
        Refusal::OutOfMemory
    }
}

/// How many sets the row claim is about: one more than the highest number in it.
pub fn sets(claim: &RowClaim) -> usize
    ensures { result ≡ min (sets_of (said claim.now)) usize.MAX }
{
    match claim {
        RowClaim::Atom(atom) => atom.sets(),
        RowClaim::Last(x) => x.saturating_add(1),
        RowClaim::Not(c) => sets(c),
        RowClaim::And(c, d) => sets(c).max(sets(d)),
        RowClaim::Some(x, c) => x.saturating_add(1).max(sets(c)),
    }
}

/// How many bytes the row claim takes, without the one that says how many sets it is about.
pub fn length_of(claim: &RowClaim) -> usize
    ensures { result ≡ min (length (row_bytes (said claim.now))) usize.MAX }
{
    match claim {
        RowClaim::Atom(atom) => atom.length(),
        RowClaim::Last(_) => 2,
        RowClaim::Not(c) => length_of(c).saturating_add(1),
        RowClaim::And(c, d) => length_of(c).saturating_add(length_of(d)).saturating_add(1),
        RowClaim::Some(_, c) => length_of(c).saturating_add(2),
    }
}

// Puts the row claim's bytes behind those that are there.
fn write(claim: &RowClaim, out: &mut Vec<u8>) -> Result<(), AllocError>
    requires { sets_of (said claim.now) ≤ 256 }
    ensures { OnOk result (out.new.items ≡ out.old.items ++ row_bytes (said claim.now)) }
{
    match claim {
        RowClaim::Atom(atom) => atom.push(out),
        RowClaim::Last(x) => {
            out.push(8)?;
            out.push(*x as u8)?;
            Ok(())
        }
        RowClaim::Not(c) => {
            out.push(4)?;
            write(c, out)
        }
        RowClaim::And(c, d) => {
            out.push(5)?;
            write(c, out)?;
            write(d, out)
        }
        RowClaim::Some(x, c) => {
            out.push(6)?;
            out.push(*x as u8)?;
            write(c, out)
        }
    }
}

/// The bytes of a row claim about at least so many sets, or why it has none.
pub fn encode(alloc: Global, claim: &RowClaim, least: usize) -> Result<Vec<u8>, Refusal>
    ensures { MatchResult result (λ bytes. SaysRow bytes.items (sets_needed least (said claim.now)) (said claim.now)) (Refused least (said claim.now)) }
{
    let k = sets(claim).max(least).max(1);
    if k > MOST_SETS as usize {
        return Err(Refusal::TooManySets(k));
    }
    let needed = length_of(claim).saturating_add(1);
    if needed > MOST_BYTES {
        return Err(Refusal::TooManyBytes(needed));
    }
    let mut bytes = Vec::new(alloc);
    bytes.push(k as u8)?;
    write(claim, &mut bytes)?;
    Ok(bytes)
}
