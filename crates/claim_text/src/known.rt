// The names that are known where a part of a formula is printed, and new ones.
ghost use Rattle.std.specs.Prelude.{◌≡◌, false, string_bytes, IfOk};
ghost use Rattle.claim_text.specs.Called.{called};

use crate::refusal::Refusal;
use formulas::name::Name;
use std::alloc::{AllocError, Global};
use tokens::kind::Kind;
use tokens::token::tokens;

/// The names of the free sets, by their numbers, and those of the places and sets that are bound around, the innermost first.
#[derive(Clone, Copy, Drop)]
pub enum Known<'a> {
    Free(&'a [&'a str]),
    Bound(Name, &'a str, &'a Known<'a>),
}

// The names of places and of sets that are bound, by how many are bound around them.
const PLACES: [&'static str; 6] = ["p", "q", "r", "s", "t", "u"];

const SETS: [&'static str; 6] = ["X", "Y", "Z", "U", "V", "W"];

// Whether both are places or both are sets.
fn is_alike(a: Name, b: Name) -> bool {
    match (a, b) {
        (Name::OfPlace(_), Name::OfPlace(_)) | (Name::OfGroup(_), Name::OfGroup(_)) => true,
        _ => false,
    }
}

impl<'a> Known<'a> {
    /// How a place or a set is called, if it is known.
    pub fn word(&self, name: Name) -> Option<&'a str> {
        match self {
            Known::Bound(other, word, rest) => {
                if *other == name {
                    Some(*word)
                } else {
                    rest.word(name)
                }
            }
            Known::Free(words) => match name {
                Name::OfGroup(x) => words.get(x as usize).copied(),
                Name::OfPlace(_) => None,
            },
        }
    }

    // Whether something is called so.
    fn has_word(&self, wanted: &str) -> bool
        ensures { result ≡ called self.now wanted.now }
    {
        match self {
            Known::Bound(_, word, rest) => *word == wanted || rest.has_word(wanted),
            Known::Free(words) => words.contains(&wanted),
        }
    }

    // How many places or how many sets are bound.
    fn bound_count(&self, name: Name) -> usize {
        match self {
            Known::Bound(other, _, rest) => {
                let inner = rest.bound_count(name);
                if is_alike(*other, name) {
                    inner.saturating_add(1)
                } else {
                    inner
                }
            }
            Known::Free(_) => 0,
        }
    }

    /// A word for a place or a set that is bound, by which nothing is called: a letter, made
    /// longer while something is called so. One that is longer than all is new, so this ends.
    pub fn new_word(&self, alloc: Global, name: Name) -> Result<String, AllocError>
        ensures { IfOk result (λ s. called self.now (string_bytes s) ≡ false) }
    {
        let letters = match name {
            Name::OfPlace(_) => PLACES,
            Name::OfGroup(_) => SETS,
        };
        let mut word = String::from_str(alloc, letters[self.bound_count(name) % 6])?;
        while self.has_word(word.as_str()) {
            word.push('1')?;
        }
        Ok(word)
    }
}

// Whether a text is one name and nothing else.
fn is_name(alloc: Global, word: &str) -> Result<bool, Refusal> {
    let Ok(all) = tokens(alloc, word.as_bytes()) else {
        return Ok(false);
    };
    match all.as_slice() {
        [token] => Ok(
            token.kind == Kind::Name && token.span.start == 0 && token.span.end == word.len(),
        ),
        _ => Ok(false),
    }
}

/// Nothing, if the words are names of the readable form, no two of them the same.
pub fn check_names(alloc: Global, words: &[&str]) -> Result<(), Refusal> {
    for (i, word) in words.iter().enumerate() {
        if !is_name(alloc, *word)? {
            return Err(Refusal::NotAName(i));
        }
        for (j, other) in words[..i].iter().enumerate() {
            if *word == *other {
                return Err(Refusal::SameName(j, i));
            }
        }
    }
    Ok(())
}
