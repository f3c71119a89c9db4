// Row claims read from their bytes into trees.
ghost use Rattle.std.specs.Prelude.{◌≡◌, MatchResult};
ghost use Rattle.row_claims.specs.Bytes.{SaysRow, IsRowClaim};
ghost use Rattle.row_claims.specs.Fronts.{RowFront, NoRowFront};
ghost use Rattle.row_claims.specs.Trees.{said};
ghost use Rattle.row_claims.specs.declared.reading.Unread.TheVariants.{NoRowClaim, OutOfMemory};

use crate::claim::opened;
use crate::sign::{RowSign, read_sign};
use crate::tree::RowClaim;
use std::alloc::{AllocError, AllocFailed, Global};
use thiserror::Error;

/// Why no row claim was read.
#[derive(Debug, Drop, Error)]
pub enum Unread {
    #[error("the bytes are no row claim")]
    NoRowClaim,
    #[error("out of memory")]
    OutOfMemory,
}

impl From<AllocError> for Unread {
    ghost from_gives = { λ _ e. e ≡ OutOfMemory };

    fn from(_e: AllocError) -> Unread {
        Unread::OutOfMemory
    }
}

impl<T: Drop> From<AllocFailed<T>> for Unread {
    ghost from_gives = { λ _ e. e ≡ OutOfMemory };

    fn from(_e: AllocFailed<T>) -> Unread {
        Unread::OutOfMemory
    }
}

// The row claim about k sets that the bytes begin with, and what stands behind it.
fn read_front(alloc: Global, bytes: &[u8], k: u8) -> Result<(RowClaim, &[u8]), Unread>
    ensures { MatchResult result (λ p. RowFront k (said p.0) bytes.now p.1.now) (λ e. e ≡ NoRowClaim → NoRowFront k bytes.now) }
{
    let Some((sign, rest)) = read_sign(bytes) else {
        return Err(Unread::NoRowClaim);
    };
    match sign {
        RowSign::Atom(atom) => {
            if atom.sets() <= k as usize {
                Ok((RowClaim::Atom(atom), rest))
            } else {
                Err(Unread::NoRowClaim)
            }
        }
        RowSign::Last(x) => {
            if x < k {
                Ok((RowClaim::Last(x as usize), rest))
            } else {
                Err(Unread::NoRowClaim)
            }
        }
        RowSign::Not => {
            let (c, more) = read_front(alloc, rest, k)?;
            Ok((RowClaim::Not(Box::new(alloc, c)?), more))
        }
        RowSign::And => {
            let (c, middle) = read_front(alloc, rest, k)?;
            let (d, more) = read_front(alloc, middle, k)?;
            Ok((
                RowClaim::And(Box::new(alloc, c)?, Box::new(alloc, d)?),
                more,
            ))
        }
        RowSign::Some(x) => {
            if x >= k {
                return Err(Unread::NoRowClaim);
            }
            let (c, more) = read_front(alloc, rest, k)?;
            Ok((RowClaim::Some(x as usize, Box::new(alloc, c)?), more))
        }
    }
}

/// The row claim that the bytes are, and about how many sets; or that they are none, or that memory
/// ran out. Longer bytes than a row claim may have are refused before they are read.
pub fn read_row(alloc: Global, bytes: &[u8]) -> Result<(u8, RowClaim), Unread>
    ensures { MatchResult result (λ p. SaysRow bytes.now p.0 (said p.1)) (λ e. e ≡ NoRowClaim → IsRowClaim bytes.now → ⊥) }
{
    let Some((k, claim)) = opened(bytes) else {
        return Err(Unread::NoRowClaim);
    };
    let (c, rest) = read_front(alloc, claim, k)?;
    if rest.is_empty() {
        Ok((k, c))
    } else {
        Err(Unread::NoRowClaim)
    }
}
