// The call on a ring claim.
ghost use Rattle.std.specs.Prelude.{length};
ghost use Rattle.ring_judge.specs.Says.{RingJudgedPost};

use crate::made::{Unmade, as_row};
use crate::ring_judged::RingJudged;
use row_judge::judge_row::judge_row;
use row_judge::row_judged::RowJudged;

/// Whether the ring claim holds of every ring, of none, or of which first; `most` is the largest number of classes that may be told
/// apart at a part of the claims about sets that are made of its row claim.
/// Nothing is asked of the arguments: too little work memory, bytes that are no ring claim and one that does not fit are answers.
/// Work memory is free, out is written only where the two rings are.
pub fn judge_ring(claim: &[u8], most: u32, out: &mut [u32], work: &mut [u32]) -> RingJudged
    ensures { RingJudgedPost claim.now most out.old out.new (length work.old) result }
{
    let row = match as_row(claim) {
        Ok(row) => row,
        Err(Unmade::NoRingClaim) => return RingJudged::NoRingClaim,
        Err(Unmade::TooManySets) => return RingJudged::TooManySets,
        Err(Unmade::TooLong) => return RingJudged::TooLong,
    };
    // A row is the ring with the same columns, so what is said of rows is said of rings.
    match judge_row(row.as_slice(), most, out, work) {
        RowJudged::Always => RingJudged::Always,
        RowJudged::Never => RingJudged::Never,
        RowJudged::Both(a, b) => RingJudged::Both(a, b),
        RowJudged::TooLong => RingJudged::TooLong,
        RowJudged::Many => RingJudged::Many,
        RowJudged::OutFull(a, b) => RingJudged::OutFull(a, b),
        RowJudged::Few => RingJudged::Few,
        RowJudged::NoRowClaim | RowJudged::TooManySets => unreachable!(),
    }
}
