// Claims about one set or two. A set is its number.
ghost use Rattle.std.specs.Prelude.{◌≡◌};
ghost use Rattle.kinds.specs.Relations.{first, second};

/// A claim about sets by their numbers: the first lies within the second, the set has exactly one
/// place, the place of the second comes just behind that of the first, the place of the first comes
/// before that of the second.
#[derive(Clone, Copy, Debug, PartialEq, Eq)]
pub enum Relation {
    Within(usize, usize),
    Single(usize),
    Next(usize, usize),
    Before(usize, usize),
}

impl Relation {
    /// The two sets that it speaks of: its one set twice where it has one.
    pub fn sets(self) -> (usize, usize)
        ensures first { result.0 ≡ first self }
        ensures second { result.1 ≡ second self }
    {
        match self {
            Relation::Within(x, y) | Relation::Next(x, y) | Relation::Before(x, y) => (x, y),
            Relation::Single(x) => (x, x),
        }
    }
}
