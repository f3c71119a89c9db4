// A ring claim's bytes written as a row claim about the same sets: sign by sign, as they are read. Each stays but that of next.
ghost use Rattle.std.specs.Prelude.{◌≡◌, ◌+◌, ◌<◌, ◌≤◌, List, ℕ, ◌++◌, length, IfSome, MatchOption};
ghost use Rattle.kinds.specs.Atoms.{row_of};
ghost use Rattle.row_claims.specs.Bytes.{row_bytes};
ghost use Rattle.ring_claims.specs.Meaning.{RingClaim, atom_of};
ghost use Rattle.ring_claims.specs.Reading.{ring_next, atom_in};
ghost use Rattle.ring_judge.specs.Put.{Overlong, Puts};

use ring_claims::atom::RingAtom;
use ring_claims::sign::{RingSign, read_sign};
use row_judge::claim_bytes::ClaimBytes;

// The place of y is the next of that of x: just behind it, or nothing is behind that of x and nothing before that of y. A place
// behind that of x is looked for as y, and one before that of y as x. Where x is y, its place is the next of itself: there is no
// place but the row's last.
fn put_next(out: &mut ClaimBytes, x: u8, y: u8) -> Option<()>
    ensures put { MatchOption result (1024 < length out.old + length (row_bytes (ring_next x y))) (λ _. out.new ≡ out.old ++ row_bytes (ring_next x y)) }
    ensures few { IfSome result (λ _. length out.new ≤ 1024) }
{
    if x == y {
        return out.push(&[5, 1, x, 4, 6, x, 5, 1, x, 4, 8, x]);
    }
    out.push(&[
        5, 1, x, 5, 1, y, 4, 5, 4, 2, x, y, 4, 5, 4, 6, y, 2, x, y, 4, 6, x, 2, x, y,
    ])
}

// The claim without parts that the bytes begin with.
fn put_atom(out: &mut ClaimBytes, atom: RingAtom, bytes: &[u8]) -> Option<()>
    requires { (t : List ℕ) × (row_of (atom_of atom) ++ t ≡ bytes.now) }
    ensures put { MatchOption result (1024 < length out.old + length (row_bytes (atom_in atom))) (λ _. out.new ≡ out.old ++ row_bytes (atom_in atom)) }
    ensures few { IfSome result (λ _. length out.new ≤ 1024) }
{
    match atom {
        RingAtom::Next(_, _) => put_next(out, bytes[1], bytes[2]),
        RingAtom::Within(_, _) | RingAtom::Single(_) | RingAtom::Multiple(_) => {
            out.push(&bytes[..atom.atom().length()])
        }
    }
}

/// The ring claim that the bytes begin with, as a row claim, and the bytes behind it. `None` where there is no room for it, or the
/// bytes begin with no ring claim.
pub fn put_in_ring<'a>(out: &mut ClaimBytes, bytes: &'a [u8]) -> Option<&'a [u8]>
    ensures { MatchOption result (Overlong (length out.old) bytes.now) (λ rest. (c : RingClaim) × Puts c out.old out.new bytes.now rest.now) }
{
    let (sign, rest) = read_sign(bytes)?;
    match sign {
        RingSign::Atom(atom) => {
            put_atom(out, atom, bytes)?;
            Some(rest)
        }
        RingSign::Not => {
            out.push(&[4])?;
            put_in_ring(out, rest)
        }
        RingSign::And => {
            out.push(&[5])?;
            let more = put_in_ring(out, rest)?;
            put_in_ring(out, more)
        }
        RingSign::Some(x) => {
            out.push(&[6, x])?;
            put_in_ring(out, rest)
        }
    }
}
