// Which sets of a claim are written as places.
ghost use Rattle.std.specs.Prelude.{◌≡◌};
ghost use Rattle.claim_formula.specs.Saying.{is_place};

/// The numbers that the claims around a claim bind, the innermost first, each as a place or as a set. A free set is a set.
#[derive(Clone, Copy, Drop)]
pub enum Scope<'a> {
    Free,
    Place(usize, &'a Scope<'a>),
    Set(usize, &'a Scope<'a>),
}

impl Scope<'_> {
    /// Whether set x is written as a place.
    pub fn is_place(&self, x: usize) -> bool
        ensures { result ≡ is_place self.now x }
    {
        match self {
            Scope::Free => false,
            Scope::Place(y, rest) => x == *y || rest.is_place(x),
            Scope::Set(y, rest) => x != *y && rest.is_place(x),
        }
    }
}
