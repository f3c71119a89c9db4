// Whether bytes are a ring claim, and about how many sets.
ghost use Rattle.std.specs.Prelude.{MatchOption};
ghost use Rattle.ring_claims.specs.Meaning.{RingClaim as Said};
ghost use Rattle.ring_claims.specs.Bytes.{SaysRing, IsRingClaim};

use crate::prefix::skip;
use row_claims::claim::opened;

/// About how many sets the ring claim is, if the bytes are one. Takes no memory.
/// Bytes of a ring claim are those of a row claim with the same signs, so both have the same bounds:
/// longer bytes are refused before they are read.
pub fn ring_sets(bytes: &[u8]) -> Option<u8>
    ensures { MatchOption result (IsRingClaim bytes.now → ⊥) (λ k. (c : Said) × SaysRing bytes.now k c) }
{
    let (k, claim) = opened(bytes)?;
    let rest = skip(claim, k)?;
    if rest.is_empty() { Some(k) } else { None }
}
