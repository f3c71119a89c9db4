// The sign that a ring claim's bytes begin with, and the numbers of its sets: that of a row claim, where a ring claim has it too.
ghost use Rattle.std.specs.Prelude.{◌≡◌, ℕ, List, ◌++◌, MatchOption, ◌≢◌};
ghost use Rattle.ring_claims.specs.Signs.{row_sign, head};

use crate::atom::{RingAtom, ring_atom};
use row_claims::sign::{RowSign, read_sign as read_row_sign};

/// A ring claim's first bytes: a claim without parts, or the sign of a claim with parts, `some` with
/// its set.
#[derive(Clone, Copy)]
pub enum RingSign {
    Atom(RingAtom),
    Not,
    And,
    Some(u8),
}

/// The ring claim's sign that is this one of a row claim; none where that says before or last.
pub fn ring_sign(sign: RowSign) -> Option<RingSign>
    ensures { MatchOption result ((g : RingSign) → row_sign g ≢ sign) (λ g. row_sign g ≡ sign) }
{
    match sign {
        RowSign::Atom(atom) => Some(RingSign::Atom(ring_atom(atom)?)),
        RowSign::Last(_) => None,
        RowSign::Not => Some(RingSign::Not),
        RowSign::And => Some(RingSign::And),
        RowSign::Some(x) => Some(RingSign::Some(x)),
    }
}

/// The sign that the bytes begin with, and the bytes behind it and its sets; none if they begin with
/// no sign of a ring claim or end before its last set.
pub fn read_sign(bytes: &[u8]) -> Option<(RingSign, &[u8])>
    ensures { MatchOption result ((g : RingSign) (t : List ℕ) → head g ++ t ≢ bytes.now) (λ p. head p.0 ++ p.1.now ≡ bytes.now) }
{
    let (sign, rest) = read_row_sign(bytes)?;
    let sign = ring_sign(sign)?;
    Some((sign, rest))
}
