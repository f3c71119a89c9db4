// A claim without parts, of whichever kind, and its bytes.
ghost use Rattle.std.specs.Prelude.{◌≡◌, ℕ, ◌≤◌, List, ◌++◌, MatchOption, OnOk, ◌≢◌, length, min};
ghost use Rattle.kinds.specs.Atoms.{row_of, sets_of};
ghost use Rattle.kinds.specs.declared.atom.Atom.TheVariants.{Related};

use crate::multiple::{Multiple, Remainder};
use crate::relation::Relation;
use std::alloc::AllocError;

/// A claim without parts. A further kind is one more variant.
#[derive(Clone, Copy, Debug, PartialEq, Eq)]
pub enum Atom {
    Related(Relation),
    Counted(Multiple),
}

impl Atom {
    /// About how many sets it is: one more than its highest number, or usize::MAX.
    pub fn sets(self) -> usize
        ensures { result ≡ min (sets_of self) usize.MAX }
    {
        match self {
            Atom::Related(relation) => {
                let (x, y) = relation.sets();
                x.max(y).saturating_add(1)
            }
            Atom::Counted(multiple) => multiple.set.saturating_add(1),
        }
    }

    /// How many bytes it takes.
    pub fn length(self) -> usize
        ensures { result ≡ length (row_of self) }
    {
        match self {
            Atom::Related(Relation::Single(_)) => 2,
            Atom::Related(_) => 3,
            Atom::Counted(_) => 4,
        }
    }

    /// Puts its bytes behind those that are there.
    pub fn push(self, out: &mut Vec<u8>) -> Result<(), AllocError>
        requires { sets_of self ≤ 256 }
        ensures { OnOk result (out.new.items ≡ out.old.items ++ row_of self) }
    {
        match self {
            Atom::Related(relation) => push_relation(relation, out),
            Atom::Counted(multiple) => {
                out.push(7)?;
                out.push(multiple.remainder.modulus)?;
                out.push(multiple.remainder.rest)?;
                out.push(multiple.set as u8)?;
                Ok(())
            }
        }
    }
}

fn push_relation(relation: Relation, out: &mut Vec<u8>) -> Result<(), AllocError>
    requires { sets_of (Related relation) ≤ 256 }
    ensures { OnOk result (out.new.items ≡ out.old.items ++ row_of (Related relation)) }
{
    let (sign, x, y) = match relation {
        Relation::Within(x, y) => (0, x, y),
        Relation::Single(x) => {
            out.push(1)?;
            return Ok(out.push(x as u8)?);
        }
        Relation::Next(x, y) => (2, x, y),
        Relation::Before(x, y) => (3, x, y),
    };
    out.push(sign)?;
    out.push(x as u8)?;
    out.push(y as u8)?;
    Ok(())
}

/// The claim without parts that bytes begin with, and the bytes behind it.
pub fn read_atom(bytes: &[u8]) -> Option<(Atom, &[u8])>
    ensures { MatchOption result ((a : Atom) (t : List ℕ) → row_of a ++ t ≢ bytes.now) (λ p. row_of p.0 ++ p.1.now ≡ bytes.now) }
{
    match bytes {
        [0, x, y, rest @ ..] => Some((
            Atom::Related(Relation::Within(*x as usize, *y as usize)),
            rest,
        )),
        [1, x, rest @ ..] => Some((Atom::Related(Relation::Single(*x as usize)), rest)),
        [2, x, y, rest @ ..] => Some((
            Atom::Related(Relation::Next(*x as usize, *y as usize)),
            rest,
        )),
        [3, x, y, rest @ ..] => Some((
            Atom::Related(Relation::Before(*x as usize, *y as usize)),
            rest,
        )),
        [7, m, r, x, rest @ ..] => {
            let remainder = Remainder::new(*m, *r)?;
            let multiple = Multiple {
                remainder,
                set: *x as usize,
            };
            Some((Atom::Counted(multiple), rest))
        }
        _ => None,
    }
}
