// The ring claim that bytes begin with, without a tree of it.
// A ring claim stands in prefix order, as a claim does: what is left to read falls with each sign.
ghost use Rattle.std.specs.Prelude.{MatchOption};
ghost use Rattle.ring_claims.specs.Meaning.{RingClaim as Said};
ghost use Rattle.ring_claims.specs.Fronts.{RingFront, NoRingFront};

use crate::sign::{RingSign, read_sign};

/// What stands behind the ring claim about k sets that the bytes begin with, if they begin with one.
pub fn skip(bytes: &[u8], k: u8) -> Option<&[u8]>
    ensures { MatchOption result (NoRingFront k bytes.now) (λ rest. (c : Said) × RingFront k c bytes.now rest.now) }
{
    let (sign, rest) = read_sign(bytes)?;
    match sign {
        RingSign::Atom(a) => {
            if a.atom().sets() <= k as usize {
                Some(rest)
            } else {
                None
            }
        }
        RingSign::Not => skip(rest, k),
        RingSign::And => {
            let more = skip(rest, k)?;
            skip(more, k)
        }
        RingSign::Some(x) => if x < k { skip(rest, k) } else { None },
    }
}
