// A claim's bytes, for the call that judges claims, or why it has none.
// What is needed is counted before anything is written, so that a refusal says how much, and a
// claim that is refused costs no memory. Counts stop at usize::MAX.
ghost use Rattle.std.specs.Prelude.{◌≡◌, ◌+◌, ◌≤◌, [], ◌∷◌, ◌++◌, length, min, OnOk, MatchResult};
ghost use Rattle.claims.specs.Rows.{row, Claim as IsBytesOf};
ghost use Rattle.claims.specs.declared.encode.Refusal.TheVariants.{OutOfMemory};
ghost use Rattle.claims.specs.Encoded.{sets_needed, Refused};
ghost use Rattle.claims.specs.Trees.{said, sets_of};

use crate::tree::Claim;
use std::alloc::{AllocError, AllocFailed, Global};
use thiserror::Error;

/// So many bytes a claim may have at most, with the one that says how many sets it is about.
pub const MOST_BYTES: usize = 1024;

/// About so many sets a claim may be at most.
pub const MOST_SETS: usize = 12;

/// Why a claim has no bytes: the numbers say how many are needed.
#[derive(Debug, Drop, Error)]
pub enum Refusal {
    #[error("{0} bytes are needed, and at most 1024 can be judged")]
    TooManyBytes(usize),
    #[error("{0} sets are needed, and at most 12 can be judged")]
    TooManySets(usize),
    #[error("out of memory")]
    OutOfMemory,
}

impl From<AllocError> for Refusal {
    ghost from_gives = { λ _ e. e ≡ OutOfMemory };

    fn from(_e: AllocError) -> Refusal {
        Refusal::OutOfMemory
    }
}

impl<T: Drop> From<AllocFailed<T>> for Refusal {
    ghost from_gives = { λ _ e. e ≡ OutOfMemory };

    fn from(_e: AllocFailed<T>) -> Refusal {
        Refusal::OutOfMemory
    }
}

/// How many sets the claim is about: one more than the highest number in it.
pub fn sets(claim: &Claim) -> usize
    ensures { result ≡ min (sets_of (said claim.now)) usize.MAX }
{
    match claim {
        Claim::Atom(atom) => atom.sets(),
        Claim::Not(c) => sets(c),
        Claim::And(c, d) => sets(c).max(sets(d)),
        Claim::Some(x, c) => x.saturating_add(1).max(sets(c)),
    }
}

/// How many bytes the claim takes, without the one that says how many sets it is about.
pub fn length_of(claim: &Claim) -> usize
    ensures { result ≡ min (length (row (said claim.now))) usize.MAX }
{
    match claim {
        Claim::Atom(atom) => atom.length(),
        Claim::Not(c) => length_of(c).saturating_add(1),
        Claim::And(c, d) => length_of(c).saturating_add(length_of(d)).saturating_add(1),
        Claim::Some(_, c) => length_of(c).saturating_add(2),
    }
}

// Puts the claim's bytes behind those that are there.
fn write(claim: &Claim, out: &mut Vec<u8>) -> Result<(), AllocError>
    requires { sets_of (said claim.now) ≤ 256 }
    ensures { OnOk result (out.new.items ≡ out.old.items ++ row (said claim.now)) }
{
    match claim {
        Claim::Atom(atom) => atom.push(out),
        Claim::Not(c) => {
            out.push(4)?;
            write(c, out)
        }
        Claim::And(c, d) => {
            out.push(5)?;
            write(c, out)?;
            write(d, out)
        }
        Claim::Some(x, c) => {
            out.push(6)?;
            out.push(*x as u8)?;
            write(c, out)
        }
    }
}

/// The bytes of a claim about at least so many sets, or why it has none.
pub fn encode(alloc: Global, claim: &Claim, least: usize) -> Result<Vec<u8>, Refusal>
    ensures { MatchResult result (λ bytes. IsBytesOf bytes.items (sets_needed least (said claim.now)) (said claim.now)) (Refused least (said claim.now)) }
{
    let k = sets(claim).max(least).max(1);
    if k > MOST_SETS {
        return Err(Refusal::TooManySets(k));
    }
    let needed = length_of(claim).saturating_add(1);
    if needed > MOST_BYTES {
        return Err(Refusal::TooManyBytes(needed));
    }
    let mut bytes = Vec::new(alloc);
    bytes.push(k as u8)?;
    write(claim, &mut bytes)?;
    Ok(bytes)
}
