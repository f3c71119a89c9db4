// What is told from the bytes of a claim about the memory that it needs.
ghost use Rattle.std.specs.Prelude.{MatchOption, ◌≡◌, ◌≤◌};
ghost use Rattle.claims.specs.Claims.{C};
ghost use Rattle.claims.specs.Rows.{Claim, IsClaim};
ghost use Rattle.narrowing.specs.Mentioned.{widest};

use crate::part::read_part;
use claims::claim::claim_sets;

/// About how many sets a claim is, and the most that any part of it mentions.
#[derive(Clone, Copy)]
pub struct Extent {
    pub sets: u8,
    pub widest: u8,
    ghost few: { sets ≤ 12 },
    ghost within: { widest ≤ sets },
}

/// The extent of the claim, if the bytes are one.
pub fn extent_of(claim: &[u8]) -> Option<Extent>
    ensures said { MatchOption result (IsClaim claim.now → ⊥) (λ e. (c : C) × Claim claim.now e.sets c × (e.widest ≡ widest e.sets c)) }
{
    let sets = claim_sets(claim)?;
    // It is a claim, so that one is read.
    let part = read_part(&claim[1..], sets)?;
    Some(Extent {
        sets,
        widest: part.widest as u8,
    })
}
