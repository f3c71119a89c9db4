// Why a text that can be read says nothing: a name that is not declared, a set where a place must stand, and the like.
ghost use Rattle.std.specs.Prelude.{◌≡◌};
ghost use Rattle.resolve.specs.declared.fault.Fault.TheVariants.{Memory};
ghost use Rattle.resolve.specs.Standing.{standing};

use std::alloc::{AllocError, AllocFailed, Global};
use std::str::from_utf8;
use trees::position::Span;

/// What an expression stands for.
#[derive(Clone, Copy, Debug, PartialEq, Eq)]
pub enum Class {
    Formula,
    Place,
    Set,
}

/// What is wrong, and where it stands. `Deep`, `Large` and `Memory` are limits of the work and no faults of the text.
#[derive(Clone, Copy, Debug, PartialEq, Eq)]
pub enum Fault {
    // what was expected, what stands there
    Class(Class, Class, Span),
    Number(Span),
    Name(Span),
    Predicate(Span),
    // how many arguments the predicate has, how many are given
    Arguments(usize, usize, Span),
    // the number by which a set is counted
    Modulus(Span),
    // that number, and where the rest stands
    Rest(u32, Span),
    Again(Span),
    // a place's number, an end or an order, on a ring
    Round(Span),
    // a ring, behind something else than declarations
    Late(Span),
    Deep(Span),
    Large(Span),
    Memory,
}

impl From<AllocError> for Fault {
    ghost from_gives = { λ _ e. e ≡ Memory };

    fn from(_error: AllocError) -> Fault {
        Fault::Memory
    }
}

impl<T: Drop> From<AllocFailed<T>> for Fault {
    ghost from_gives = { λ _ e. e ≡ Memory };

    fn from(_error: AllocFailed<T>) -> Fault {
        Fault::Memory
    }
}

impl Class {
    fn word(self) -> &'static str {
        match self {
            Class::Formula => "a formula",
            Class::Place => "a place",
            Class::Set => "a set",
        }
    }
}

impl Fault {
    /// Where it stands; without memory nothing in the text is at fault.
    pub fn span(&self) -> Option<Span>
        ensures { result ≡ standing self.now }
    {
        match self {
            Fault::Class(_, _, span)
            | Fault::Number(span)
            | Fault::Name(span)
            | Fault::Predicate(span)
            | Fault::Arguments(_, _, span)
            | Fault::Modulus(span)
            | Fault::Rest(_, span)
            | Fault::Again(span)
            | Fault::Round(span)
            | Fault::Late(span)
            | Fault::Deep(span)
            | Fault::Large(span) => Some(*span),
            Fault::Memory => None,
        }
    }

    /// What was expected and what stands there, in words. Fails for want of memory.
    pub fn message(&self, heap: Global, text: &[u8]) -> Result<String, AllocError> {
        let found = match self.span() {
            Some(span) => from_utf8(span.of(text)).unwrap_or(""),
            None => "",
        };
        match self {
            Fault::Class(wanted, class, _) => {
                let wanted = wanted.word();
                let class = class.word();
                format!(in heap; "expected {wanted}, found {class}, `{found}`")
            }
            Fault::Number(_) => format!(in heap; "expected a number, found `{found}`"),
            Fault::Name(_) => format!(in heap;
                "expected a name that is declared or bound, found `{found}`"
            ),
            Fault::Predicate(_) => format!(in heap;
                "expected a predicate that is declared before, found `{found}`"
            ),
            Fault::Arguments(wanted, given, _) => {
                let word = if *wanted == 1 {
                    "argument"
                } else {
                    "arguments"
                };
                format!(in heap; "expected {wanted} {word}, found {given} in `{found}`")
            }
            Fault::Modulus(_) => format!(in heap;
                "expected a number from 2 to 16 to count by, found `{found}`"
            ),
            Fault::Rest(modulus, _) => format!(in heap;
                "expected a rest below {modulus}, found `{found}`"
            ),
            Fault::Again(_) => format!(in heap;
                "expected a name that is not declared yet, found `{found}`"
            ),
            Fault::Round(_) => format!(in heap;
                "a ring has no first place and no last one, found `{found}`"
            ),
            Fault::Late(_) => format!(in heap;
                "expected only `var1` and `var2` before `{found}`, found other items"
            ),
            Fault::Deep(_) => String::from_str(
                heap,
                "expected at most 3000 parts within one another when predicates are expanded, found more",
            ),
            Fault::Large(_) => String::from_str(
                heap,
                "expected at most 4000 parts when predicates are expanded, found more",
            ),
            Fault::Memory => String::from_str(heap, "there is not enough memory"),
        }
    }
}
