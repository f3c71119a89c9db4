// Whether bytes are a row claim, and about how many sets.
ghost use Rattle.std.specs.Prelude.{MatchOption};
ghost use Rattle.row_claims.specs.Meaning.{RowClaim as Said};
ghost use Rattle.row_claims.specs.Bytes.{SaysRow, IsRowClaim};
ghost use Rattle.row_claims.specs.Fronts.{Opens};

use crate::prefix::skip;

/// About so many sets a row claim may be at most.
pub const MOST_SETS: u8 = 12;

/// So many bytes a row claim may have at most, with the one that says how many sets it is about.
pub const MOST_BYTES: usize = 1024;

/// The number of sets that the bytes begin with, and the bytes behind it, unless there are too many
/// bytes for a row claim, no sets or too many of them.
pub fn opened(bytes: &[u8]) -> Option<(u8, &[u8])>
    ensures { MatchOption result (IsRowClaim bytes.now → ⊥) (λ p. Opens bytes.now p.0 p.1.now) }
{
    if bytes.len() > MOST_BYTES {
        return None;
    }
    let [k, claim @ ..] = bytes else {
        return None;
    };
    if *k < 1 || *k > MOST_SETS {
        return None;
    }
    Some((*k, claim))
}

/// About how many sets the row claim is, if the bytes are one. Takes no memory.
/// A row claim of 1,024 bytes can nest a thousand deep, and reading it goes as deep: longer bytes
/// are refused before they are read.
pub fn row_sets(bytes: &[u8]) -> Option<u8>
    ensures { MatchOption result (IsRowClaim bytes.now → ⊥) (λ k. (c : Said) × SaysRow bytes.now k c) }
{
    let (k, claim) = opened(bytes)?;
    let rest = skip(claim, k)?;
    if rest.is_empty() { Some(k) } else { None }
}
