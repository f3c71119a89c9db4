// The call on a ring claim for other languages: numbers and slices cross, and an answer is three numbers.
ghost use Rattle.std.specs.Prelude.{◌≡◌, length};
ghost use Rattle.export.specs.RingVerdict.{tag, first, second, Exported};

use crate::verdict::Verdict;
use ring_judge::judge_ring::judge_ring;
use ring_judge::ring_judged::RingJudged;

// An answer as three numbers. Which answer: 0 always, 1 never, 2 both, 3 no ring claim, 4 many, 5 out full, 6 few, 7 too long,
// 8 too many sets; and for 2 and 5 the lengths of the two first rings, else 0.
pub fn ring_numbers(answer: RingJudged) -> Verdict
    ensures { (result.tag ≡ tag answer) × (result.first ≡ first answer) × (result.second ≡ second answer) }
{
    let (tag, first, second) = match answer {
        RingJudged::Always => (0, 0, 0),
        RingJudged::Never => (1, 0, 0),
        RingJudged::Both(a, b) => (2, a, b),
        RingJudged::NoRingClaim => (3, 0, 0),
        RingJudged::Many => (4, 0, 0),
        RingJudged::OutFull(a, b) => (5, a, b),
        RingJudged::Few => (6, 0, 0),
        RingJudged::TooLong => (7, 0, 0),
        RingJudged::TooManySets => (8, 0, 0),
    };
    Verdict { tag, first, second }
}

// The call. A slice crosses as a pointer and a length.
#[unsafe(no_mangle)]
pub extern "C" fn ceivuron_judge_ring(
    claim: &[u8],
    most: u32,
    out: &mut [u32],
    work: &mut [u32],
) -> Verdict
    ensures { Exported claim.now most out.old out.new (length work.old) result.tag result.first result.second }
{
    ring_numbers(judge_ring(claim, most, out, work))
}
