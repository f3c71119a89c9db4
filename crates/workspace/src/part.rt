// The claim that bytes begin with: which sets it mentions, and the most that any part of it does.
// It is read in prefix order: a sign, its sets, and then its parts one after the other.
ghost use Rattle.std.specs.Prelude.{MatchOption, ◌≤◌};
ghost use Rattle.claims.specs.Claims.{C};
ghost use Rattle.claims.specs.Fronts.{NoFront};
ghost use Rattle.workspace.specs.Extents.{Read};

use claims::sign::{Sign, read_sign};
use selection::mentioned::mentioned;
use selection::selection::Selection;

/// What is read of a claim that bytes begin with.
#[derive(Drop)]
pub struct Part<'a> {
    /// The sets that it mentions.
    pub sets: Selection,
    /// The most sets that any part of it mentions.
    pub widest: u32,
    /// What stands behind it.
    pub rest: &'a [u8],
}

/// Reads the claim about k sets that the bytes begin with, if they begin with one.
pub fn read_part(bytes: &[u8], k: u8) -> Option<Part<'_>>
    requires { k ≤ 12 }
    ensures { MatchOption result (NoFront k bytes.now) (λ p. (c : C) × Read k c bytes.now p) }
{
    let (sign, rest) = read_sign(bytes)?;
    match sign {
        Sign::Atom(atom) => {
            if atom.sets() <= k as usize {
                let sets = mentioned(atom, u32::from(k));
                Some(Part {
                    sets,
                    widest: sets.count(),
                    rest,
                })
            } else {
                None
            }
        }
        Sign::Not => read_part(rest, k),
        Sign::And => {
            let first = read_part(rest, k)?;
            let second = read_part(first.rest, k)?;
            let sets = first.sets.with(second.sets);
            Some(Part {
                sets,
                widest: sets.count().max(first.widest.max(second.widest)),
                rest: second.rest,
            })
        }
        Sign::Some(x) => {
            if x.0 < k {
                let part = read_part(rest, k)?;
                let sets = part.sets.without(x);
                Some(Part {
                    sets,
                    widest: sets.count().max(part.widest),
                    rest: part.rest,
                })
            } else {
                None
            }
        }
    }
}
