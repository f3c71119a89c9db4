// A claim's first word, found in lent memory.
ghost use Rattle.std.specs.Prelude.{ℕ, ◌*◌, ◌≤◌, length};
ghost use Rattle.claims.specs.Rows.{IsClaim};
ghost use Rattle.row_judge.specs.Finding.{NotAll, Enough, FindsFirst};

use lengths::judge::judge;
use lengths::judged::Judged;

/// Of which words a claim holds: of none, or of one first, which has so many columns; or more classes would have to be told
/// apart than are allowed.
#[derive(Clone, Copy)]
pub enum FirstWord {
    Nothing,
    Long(usize),
    TooLarge,
}

/// What is found of a claim that does not hold of every word. The word stands first in out.
pub fn first_word(claim: &[u8], most: u32, out: &mut [u32], work: &mut [u32]) -> FirstWord
    requires claim { IsClaim claim.now }
    requires not_all { NotAll claim.now }
    requires out { 2 * most ≤ length out.old }
    requires work { Enough claim.now most (length work.old) }
    ensures { FindsFirst claim.now most out.new result }
{
    match judge(claim, most, out, work) {
        Judged::Never => FirstWord::Nothing,
        Judged::Both(first, _) => FirstWord::Long(first),
        Judged::Many => FirstWord::TooLarge,
        Judged::Always | Judged::NoClaim | Judged::OutFull(_, _) | Judged::Few => unreachable!(),
    }
}
