// A ring claim's bytes, or why it has none.
// What is needed is counted before anything is written, so that a refusal says how much. Counts
// stop at usize::MAX.
ghost use Rattle.std.specs.Prelude.{◌≡◌, ◌≤◌, ◌++◌, length, min, OnOk, MatchResult};
ghost use Rattle.ring_claims.specs.Bytes.{ring_bytes, SaysRing};
ghost use Rattle.ring_claims.specs.declared.encode.Refusal.TheVariants.{OutOfMemory};
ghost use Rattle.ring_claims.specs.Encoded.{sets_needed, Refused};
ghost use Rattle.ring_claims.specs.Trees.{said, sets_of};

use crate::tree::RingClaim;
use row_claims::claim::{MOST_BYTES, MOST_SETS};
use std::alloc::{AllocError, AllocFailed, Global};
use thiserror::Error;

/// Why a ring claim has no bytes: the numbers say how many are needed.
#[derive(Debug, Drop, Error)]
pub enum Refusal {
    #[error("{0} bytes are needed, and a ring claim has at most 1024")]
    TooManyBytes(usize),
    #[error("{0} sets are needed, and a ring claim is about at most 12")]
    TooManySets(usize),
    #[error("out of memory")]
    OutOfMemory,
}

impl From<AllocError> for Refusal {
    ghost from_gives = { λ _ e. e ≡ OutOfMemory };

    fn from(_e: AllocError) -> Refusal {
        Refusal::OutOfMemory
    }
}

impl<T: Drop> From<AllocFailed<T>> for Refusal {
    ghost from_gives = { λ _ e. e ≡ OutOfMemory };

    fn from(_e: AllocFailed<T>) -> Refusal {
        Refusal::OutOfMemory
    }
}

/// How many sets the ring claim is about: one more than the highest number in it.
pub fn sets(claim: &RingClaim) -> usize
    ensures { result ≡ min (sets_of (said claim.now)) usize.MAX }
{
    match claim {
        RingClaim::Atom(a) => a.atom().sets(),
        RingClaim::Not(c) => sets(c),
        RingClaim::And(c, d) => sets(c).max(sets(d)),
        RingClaim::Some(x, c) => x.saturating_add(1).max(sets(c)),
    }
}

/// How many bytes the ring claim takes, without the one that says how many sets it is about.
pub fn length_of(claim: &RingClaim) -> usize
    ensures { result ≡ min (length (ring_bytes (said claim.now))) usize.MAX }
{
    match claim {
        RingClaim::Atom(a) => a.atom().length(),
        RingClaim::Not(c) => length_of(c).saturating_add(1),
        RingClaim::And(c, d) => length_of(c).saturating_add(length_of(d)).saturating_add(1),
        RingClaim::Some(_, c) => length_of(c).saturating_add(2),
    }
}

// Puts the ring claim's bytes behind those that are there.
fn write(claim: &RingClaim, out: &mut Vec<u8>) -> Result<(), AllocError>
    requires { sets_of (said claim.now) ≤ 256 }
    ensures { OnOk result (out.new.items ≡ out.old.items ++ ring_bytes (said claim.now)) }
{
    match claim {
        RingClaim::Atom(a) => a.atom().push(out),
        RingClaim::Not(c) => {
            out.push(4)?;
            write(c, out)
        }
        RingClaim::And(c, d) => {
            out.push(5)?;
            write(c, out)?;
            write(d, out)
        }
        RingClaim::Some(x, c) => {
            out.push(6)?;
            out.push(*x as u8)?;
            write(c, out)
        }
    }
}

/// The bytes of a ring claim about at least so many sets, or why it has none.
pub fn encode(alloc: Global, claim: &RingClaim, least: usize) -> Result<Vec<u8>, Refusal>
    ensures { MatchResult result (λ bytes. SaysRing bytes.items (sets_needed least (said claim.now)) (said claim.now)) (Refused least (said claim.now)) }
{
    let k = sets(claim).max(least).max(1);
    if k > MOST_SETS as usize {
        return Err(Refusal::TooManySets(k));
    }
    let needed = length_of(claim).saturating_add(1);
    if needed > MOST_BYTES {
        return Err(Refusal::TooManyBytes(needed));
    }
    let mut bytes = Vec::new(alloc);
    bytes.push(k as u8)?;
    write(claim, &mut bytes)?;
    Ok(bytes)
}
