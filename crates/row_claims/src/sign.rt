// The sign that a row claim's bytes begin with, and the numbers of its sets.
ghost use Rattle.std.specs.Prelude.{◌≡◌, ℕ, List, ◌++◌, MatchOption, ◌≢◌};
ghost use Rattle.row_claims.specs.Signs.{head};

use kinds::atom::{Atom, read_atom};

/// A row claim's first bytes: a claim without parts, `last` with its set, or the sign of a claim
/// with parts, `some` with its set.
#[derive(Clone, Copy)]
pub enum RowSign {
    Atom(Atom),
    Last(u8),
    Not,
    And,
    Some(u8),
}

/// The sign that the bytes begin with, and the bytes behind it and its sets; none if they begin with
/// no sign or end before its last set.
pub fn read_sign(bytes: &[u8]) -> Option<(RowSign, &[u8])>
    ensures { MatchOption result ((g : RowSign) (t : List ℕ) → head g ++ t ≢ bytes.now) (λ p. head p.0 ++ p.1.now ≡ bytes.now) }
{
    match bytes {
        [4, rest @ ..] => Some((RowSign::Not, rest)),
        [5, rest @ ..] => Some((RowSign::And, rest)),
        [6, x, rest @ ..] => Some((RowSign::Some(*x), rest)),
        [8, x, rest @ ..] => Some((RowSign::Last(*x), rest)),
        _ => {
            let (atom, rest) = read_atom(bytes)?;
            Some((RowSign::Atom(atom), rest))
        }
    }
}
