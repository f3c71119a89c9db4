// Which set stands for which name.
ghost use Rattle.std.specs.Prelude.{◌≡◌, ◌++◌};
ghost use Rattle.translation.specs.Numbers;
ghost use Rattle.translation.specs.Numbers.{numbers, among};
ghost use Rattle.formula_claims.specs.Listed.{position_of};
ghost use Rattle.formula_claims.specs.Scope.{number_of};

use formulas::name::Name;

// The caller's names have their places in the list for numbers; what quantifiers have bound comes before them, the innermost first.
#[derive(Clone, Copy, Drop)]
pub enum Scope<'a> {
    Free(&'a [Name]),
    Bound(Name, usize, &'a Scope<'a>),
}

impl Scope<'_> {
    // The number of the set that stands for a name.
    pub fn number(&self, name: Name) -> usize
        ensures { result ≡ number_of self.now name }
    {
        match self {
            Scope::Free(names) => position(names, name),
            Scope::Bound(x, n, rest) => if *x == name { *n } else { rest.number(name) },
        }
    }
}

// The place of the name in the list, the list's length where it is not there.
pub fn position(names: &[Name], name: Name) -> usize
    ensures { result ≡ position_of name names.now }
{
    for (i, x) in names.iter().enumerate() {
        if *x == name {
            return i;
        }
    }
    names.len()
}

// The lowest number that is neither among those taken nor the number of one of the names.
pub fn fresh(taken: &[usize], names: &[Name], scope: &Scope) -> usize
    ensures { result ≡ Numbers.fresh (taken.now ++ numbers (number_of scope.now) names.now) }
{
    for n in 0..taken.len() + names.len() {
        if !is_taken(n, taken, names, scope) {
            return n;
        }
    }
    taken.len() + names.len()
}

fn is_taken(n: usize, taken: &[usize], names: &[Name], scope: &Scope) -> bool
    ensures { result ≡ among n (taken.now ++ numbers (number_of scope.now) names.now) }
{
    for x in taken {
        if n == *x {
            return true;
        }
    }
    for x in names {
        if n == scope.number(*x) {
            return true;
        }
    }
    false
}
