// The call for other languages: numbers and slices cross, and an answer is three numbers.
ghost use Rattle.std.specs.Prelude.{◌≡◌, length};
ghost use Rattle.export.specs.Verdict.{tag, first, second, Exported};
ghost use Rattle.lengths.specs.declared.judged.Judged.{Judged};

use lengths::judge::judge;
use lengths::judged::Judged;

// Which answer: 0 always, 1 never, 2 both, 3 no claim, 4 many, 5 out full, 6 few; and for 2 and 5
// the lengths of the two first words, else 0.
#[repr(C)]
#[derive(Clone, Copy)]
pub struct Verdict {
    pub tag: u32,
    pub first: usize,
    pub second: usize,
}

// An answer as three numbers.
pub fn numbers(answer: Judged) -> Verdict
    ensures { (result.tag ≡ tag answer) × (result.first ≡ first answer) × (result.second ≡ second answer) }
{
    match answer {
        Judged::Always => Verdict {
            tag: 0,
            first: 0,
            second: 0,
        },
        Judged::Never => Verdict {
            tag: 1,
            first: 0,
            second: 0,
        },
        Judged::Both(a, b) => Verdict {
            tag: 2,
            first: a,
            second: b,
        },
        Judged::NoClaim => Verdict {
            tag: 3,
            first: 0,
            second: 0,
        },
        Judged::Many => Verdict {
            tag: 4,
            first: 0,
            second: 0,
        },
        Judged::OutFull(a, b) => Verdict {
            tag: 5,
            first: a,
            second: b,
        },
        Judged::Few => Verdict {
            tag: 6,
            first: 0,
            second: 0,
        },
    }
}

// The call. A slice crosses as a pointer and a length.
#[unsafe(no_mangle)]
pub extern "C" fn ceivuron_judge(
    claim: &[u8],
    most: u32,
    out: &mut [u32],
    work: &mut [u32],
) -> Verdict
    ensures { Exported claim.now most out.old out.new (length work.old) result.tag result.first result.second }
{
    numbers(judge(claim, most, out, work))
}
