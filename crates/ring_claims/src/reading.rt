// Ring claims read from their bytes into trees.
ghost use Rattle.std.specs.Prelude.{◌≡◌, MatchResult};
ghost use Rattle.ring_claims.specs.Bytes.{SaysRing, IsRingClaim};
ghost use Rattle.ring_claims.specs.Fronts.{RingFront, NoRingFront};
ghost use Rattle.ring_claims.specs.Trees.{said};
ghost use Rattle.ring_claims.specs.declared.reading.Unread.TheVariants.{NoRingClaim, OutOfMemory};

use crate::sign::{RingSign, read_sign};
use crate::tree::RingClaim;
use row_claims::claim::opened;
use std::alloc::{AllocError, AllocFailed, Global};
use thiserror::Error;

/// Why no ring claim was read.
#[derive(Debug, Drop, Error)]
pub enum Unread {
    #[error("the bytes are no ring claim")]
    NoRingClaim,
    #[error("out of memory")]
    OutOfMemory,
}

impl From<AllocError> for Unread {
    ghost from_gives = { λ _ e. e ≡ OutOfMemory };

    fn from(_e: AllocError) -> Unread {
        Unread::OutOfMemory
    }
}

impl<T: Drop> From<AllocFailed<T>> for Unread {
    ghost from_gives = { λ _ e. e ≡ OutOfMemory };

    fn from(_e: AllocFailed<T>) -> Unread {
        Unread::OutOfMemory
    }
}

// The ring claim about k sets that the bytes begin with, and what stands behind it.
fn read_front(alloc: Global, bytes: &[u8], k: u8) -> Result<(RingClaim, &[u8]), Unread>
    ensures { MatchResult result (λ p. RingFront k (said p.0) bytes.now p.1.now) (λ e. e ≡ NoRingClaim → NoRingFront k bytes.now) }
{
    let Some((sign, rest)) = read_sign(bytes) else {
        return Err(Unread::NoRingClaim);
    };
    match sign {
        RingSign::Atom(a) => {
            if a.atom().sets() <= k as usize {
                Ok((RingClaim::Atom(a), rest))
            } else {
                Err(Unread::NoRingClaim)
            }
        }
        RingSign::Not => {
            let (c, more) = read_front(alloc, rest, k)?;
            Ok((RingClaim::Not(Box::new(alloc, c)?), more))
        }
        RingSign::And => {
            let (c, middle) = read_front(alloc, rest, k)?;
            let (d, more) = read_front(alloc, middle, k)?;
            Ok((
                RingClaim::And(Box::new(alloc, c)?, Box::new(alloc, d)?),
                more,
            ))
        }
        RingSign::Some(x) => {
            if x >= k {
                return Err(Unread::NoRingClaim);
            }
            let (c, more) = read_front(alloc, rest, k)?;
            Ok((RingClaim::Some(x as usize, Box::new(alloc, c)?), more))
        }
    }
}

/// The ring claim that the bytes are, and about how many sets; or that they are none, or that memory
/// ran out. Longer bytes than a ring claim may have are refused before they are read.
pub fn read_ring(alloc: Global, bytes: &[u8]) -> Result<(u8, RingClaim), Unread>
    ensures { MatchResult result (λ p. SaysRing bytes.now p.0 (said p.1)) (λ e. e ≡ NoRingClaim → IsRingClaim bytes.now → ⊥) }
{
    let Some((k, claim)) = opened(bytes) else {
        return Err(Unread::NoRingClaim);
    };
    let (c, rest) = read_front(alloc, claim, k)?;
    if rest.is_empty() {
        Ok((k, c))
    } else {
        Err(Unread::NoRingClaim)
    }
}
