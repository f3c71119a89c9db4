// The call on a row claim for other languages: numbers and slices cross, and an answer is three numbers.
ghost use Rattle.std.specs.Prelude.{◌≡◌, length};
ghost use Rattle.export.specs.RowVerdict.{tag, first, second, Exported};

use crate::verdict::Verdict;
use row_judge::judge_row::judge_row;
use row_judge::row_judged::RowJudged;

// An answer as three numbers. Which answer: 0 always, 1 never, 2 both, 3 no row claim, 4 many, 5 out full, 6 few, 7 too long,
// 8 too many sets; and for 2 and 5 the lengths of the two first rows, else 0.
pub fn row_numbers(answer: RowJudged) -> Verdict
    ensures { (result.tag ≡ tag answer) × (result.first ≡ first answer) × (result.second ≡ second answer) }
{
    let (tag, first, second) = match answer {
        RowJudged::Always => (0, 0, 0),
        RowJudged::Never => (1, 0, 0),
        RowJudged::Both(a, b) => (2, a, b),
        RowJudged::NoRowClaim => (3, 0, 0),
        RowJudged::Many => (4, 0, 0),
        RowJudged::OutFull(a, b) => (5, a, b),
        RowJudged::Few => (6, 0, 0),
        RowJudged::TooLong => (7, 0, 0),
        RowJudged::TooManySets => (8, 0, 0),
    };
    Verdict { tag, first, second }
}

// The call. A slice crosses as a pointer and a length.
#[unsafe(no_mangle)]
pub extern "C" fn ceivuron_judge_row(
    claim: &[u8],
    most: u32,
    out: &mut [u32],
    work: &mut [u32],
) -> Verdict
    ensures { Exported claim.now most out.old out.new (length work.old) result.tag result.first result.second }
{
    row_numbers(judge_row(claim, most, out, work))
}
