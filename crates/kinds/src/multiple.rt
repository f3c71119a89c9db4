// Counting the places of a set by a number.
ghost use Rattle.std.specs.Prelude.{◌≡◌, ◌<◌, ◌≤◌, MatchOption};

/// A number to count by, and what is left: the numbers that are a multiple of `modulus` and `rest`
/// besides.
#[derive(Clone, Copy, Debug, PartialEq, Eq)]
pub struct Remainder {
    pub modulus: u8,
    pub rest: u8,
    ghost least: { 2 ≤ modulus },
    ghost most: { modulus ≤ 16 },
    ghost below: { rest < modulus },
}

impl Remainder {
    /// The remainder, if the modulus is from 2 to 16 and the rest below it.
    pub fn new(modulus: u8, rest: u8) -> Option<Remainder>
        ensures { MatchOption result ((2 ≤ modulus) → (modulus ≤ 16) → (rest < modulus) → ⊥) (λ r. (r.modulus ≡ modulus) × (r.rest ≡ rest)) }
    {
        if 2 <= modulus && modulus <= 16 && rest < modulus {
            Some(Remainder { modulus, rest })
        } else {
            None
        }
    }
}

/// Set `set` is finite, and its places are as many as the remainder says.
#[derive(Clone, Copy, Debug, PartialEq, Eq)]
pub struct Multiple {
    pub remainder: Remainder,
    pub set: usize,
}
