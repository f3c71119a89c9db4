// The row claim that bytes begin with, without a tree of it.
// A row claim stands in prefix order, as a claim does: what is left to read falls with each sign.
ghost use Rattle.std.specs.Prelude.{MatchOption};
ghost use Rattle.row_claims.specs.Meaning.{RowClaim as Said};
ghost use Rattle.row_claims.specs.Fronts.{RowFront, NoRowFront};

use crate::sign::{RowSign, read_sign};

/// What stands behind the row claim about k sets that the bytes begin with, if they begin with one.
pub fn skip(bytes: &[u8], k: u8) -> Option<&[u8]>
    ensures { MatchOption result (NoRowFront k bytes.now) (λ rest. (c : Said) × RowFront k c bytes.now rest.now) }
{
    let (sign, rest) = read_sign(bytes)?;
    match sign {
        RowSign::Atom(atom) => {
            if atom.sets() <= k as usize {
                Some(rest)
            } else {
                None
            }
        }
        RowSign::Last(x) => if x < k { Some(rest) } else { None },
        RowSign::Not => skip(rest, k),
        RowSign::And => {
            let more = skip(rest, k)?;
            skip(more, k)
        }
        RowSign::Some(x) => if x < k { skip(rest, k) } else { None },
    }
}
