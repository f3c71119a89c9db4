// The call on a row claim.
ghost use Rattle.std.specs.Prelude.{length};
ghost use Rattle.row_judge.specs.Says.{RowJudgedPost};

use crate::finding::{FirstWord, first_word};
use crate::made::{Unmade, claim_with, claim_without};
use crate::modules::write_rows;
use crate::row_judged::RowJudged;
use workspace::floor::floor;

/// Whether the row claim holds of every row, of none, or of which first; `most` is the largest number of classes that may be
/// told apart at a part of the claims about sets that are made of it.
/// Nothing is asked of the arguments: too little work memory, bytes that are no row claim and one that does not fit are answers.
/// Work memory is free, out is written only where the two rows are.
pub fn judge_row(claim: &[u8], most: u32, out: &mut [u32], work: &mut [u32]) -> RowJudged
    ensures { RowJudgedPost claim.now most out.old out.new (length work.old) result }
{
    let (sets, without) = match claim_without(claim) {
        Ok(made) => made,
        Err(Unmade::NoRowClaim) => return RowJudged::NoRowClaim,
        Err(Unmade::TooManySets) => return RowJudged::TooManySets,
        Err(Unmade::TooLong) => return RowJudged::TooLong,
    };
    if (work.len() as u128) < floor(without.as_slice(), most) + 3 * u128::from(most) {
        return RowJudged::Few;
    }
    let with = claim_with(claim, sets);
    let n = most as usize;
    let (words, rest) = work.split_at_mut(3 * n);
    // A first word is shorter than there are classes, so the first row stays where it is.
    let a = match first_word(with.as_slice(), most, &mut words[..2 * n], rest) {
        FirstWord::Nothing => return RowJudged::Never,
        FirstWord::TooLarge => return RowJudged::Many,
        FirstWord::Long(a) => a,
    };
    let b = match first_word(without.as_slice(), most, &mut words[n..], rest) {
        FirstWord::Nothing => return RowJudged::Always,
        FirstWord::TooLarge => unreachable!(),
        FirstWord::Long(b) => b,
    };
    if out.len() < a + b {
        return RowJudged::OutFull(a, b);
    }
    let (first, second) = words.split_at(n);
    write_rows(sets, &first[..a], &second[..b], out);
    RowJudged::Both(a, b)
}
