// The row claim that is made of a ring claim.
ghost use Rattle.std.specs.Prelude.{◌≡◌, ◌<◌, ◌≤◌, ℕ, length, IfSome, MatchOption, MatchResult};
ghost use Rattle.ring_claims.specs.Meaning.{RingClaim};
ghost use Rattle.ring_claims.specs.Bytes.{SaysRing};
ghost use Rattle.ring_judge.specs.Made.{Made, NotMade, as_row as wanted};

use crate::put::put_in_ring;
use ring_claims::claim::ring_sets;
use row_judge::claim_bytes::ClaimBytes;

// A ring claim about so many sets at most leaves one of the 12 for the row.
const MOST_SETS: u8 = 11;

/// Why no claim about sets is made: the bytes are no ring claim, or the claim would be about more than 12 sets, or take more than
/// 1,024 bytes.
#[derive(Clone, Copy)]
pub enum Unmade {
    NoRingClaim,
    TooManySets,
    TooLong,
}

// The row claim about so many sets. `None` where it takes more than 1,024 bytes.
fn put_row(claim: &[u8], sets: u8) -> Option<ClaimBytes>
    ensures made { (c : RingClaim) → SaysRing claim.now sets c → MatchOption result (1024 < length (wanted sets c)) (λ made. made ≡ wanted sets c) }
    ensures few { IfSome result (λ made. length made ≤ 1024) }
{
    let [_, body @ ..] = claim else {
        return None;
    };
    let mut out = ClaimBytes::new();
    out.push(&[sets])?;
    put_in_ring(&mut out, body)?;
    Some(out)
}

/// The row claim as which the ring claim is read that the bytes say. A row claim that would be too long is no other answer than one
/// of which too long a claim about sets is made: that is longer still.
pub fn as_row(claim: &[u8]) -> Result<ClaimBytes, Unmade>
    ensures { MatchResult result (λ row. (k : ℕ) × (c : RingClaim) × Made claim.now k c row) (NotMade claim.now) }
{
    let Some(sets) = ring_sets(claim) else {
        return Err(Unmade::NoRingClaim);
    };
    if sets > MOST_SETS {
        return Err(Unmade::TooManySets);
    }
    match put_row(claim, sets) {
        Some(row) => Ok(row),
        None => Err(Unmade::TooLong),
    }
}
