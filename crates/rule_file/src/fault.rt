// What is wrong with a rule file: where it stands, what was expected and what stands there.
ghost use Rattle.std.specs.Prelude.{◌≡◌};

use crate::token::{Kind, Token};
use std::alloc::{AllocError, AllocFailed};
use std::fmt;
use std::str::from_utf8;
use thiserror::Error;
use trees::position::Span;

/// What could stand at a place.
#[derive(Clone, Copy, Debug, PartialEq, Eq)]
pub enum Wanted {
    Bits,
    Statement,
    Colon,
    Name,
    NameOrEnd,
    BitName,
    Term,
    TermOrBar,
    TermOrArrow,
    TermOrEnd,
    Motion,
    ChangeOrEnd,
    Source,
    Dot,
    Module,
    ModuleOrEnd,
    Formula,
    LineEnd,
}

/// Why a text is no rule file.
#[derive(Clone, Copy, Debug, PartialEq, Eq, Error)]
pub enum Fault {
    // what was expected, and the token that stands there, or none at the end of the file
    #[error("something else is expected")]
    Expected(Wanted, Option<Token>),
    #[error("a module has at most five bits")]
    SixthBit(Token),
    #[error("this name is given twice")]
    Twice(Token),
    #[error("this name is a word of formulas")]
    Reserved(Token),
    #[error("the bits are named twice")]
    SecondBits(Token),
    #[error("the ring is declared further on")]
    LateRing(Token),
    #[error("out of memory")]
    OutOfMemory,
}

impl From<AllocError> for Fault {
    fn from(_error: AllocError) -> Fault {
        Fault::OutOfMemory
    }
}

impl<T: Drop> From<AllocFailed<T>> for Fault {
    fn from(_error: AllocFailed<T>) -> Fault {
        Fault::OutOfMemory
    }
}

impl fmt::Display for Wanted {
    fn fmt<W: fmt::Write>(&self, f: &mut fmt::Formatter<W>) -> fmt::Result {
        write!(f, "{}", self.words())
    }
}

impl Wanted {
    // What could stand there, in words.
    fn words(self) -> &'static str {
        match self {
            Wanted::Bits => "`bits:` with the names of a module's bits",
            Wanted::Statement =>
                "`allowed:`, `table:`, `start:`, `never`, `claim`, `kept`, `helpers:` or `row:`",
            Wanted::Colon => "`:`",
            Wanted::Name => "a name",
            Wanted::NameOrEnd => "a name or the end of the line",
            Wanted::BitName => "a bit's name",
            Wanted::Term => "a bit's name, `!` and a bit's name, `module`, `none` or `*`",
            Wanted::TermOrBar => "`|` or a further word of the pattern",
            Wanted::TermOrArrow => "`->` or a further word of the pattern",
            Wanted::TermOrEnd => "a further word of the pattern or the end of the line",
            Wanted::Motion => "`moves`, `waits` or a bit that changes",
            Wanted::ChangeOrEnd => "a bit that changes or the end of the line",
            Wanted::Source => "a bit's name, `left.` or `right.`",
            Wanted::Dot => "`.`",
            Wanted::Module => "a module: `.`, or the names of its bits with `+` between them",
            Wanted::ModuleOrEnd => "`+`, a further module or the end of the line",
            Wanted::Formula => "a formula",
            Wanted::LineEnd => "the end of the line",
        }
    }
}

// A word that means something in a rule file, and so is no name.
fn is_word(kind: Kind) -> bool {
    match kind {
        Kind::Bits
        | Kind::Ring
        | Kind::Allowed
        | Kind::Table
        | Kind::Start
        | Kind::Never
        | Kind::Claim
        | Kind::Kept
        | Kind::Helpers
        | Kind::Row
        | Kind::Module
        | Kind::Missing
        | Kind::Moves
        | Kind::Waits
        | Kind::Left
        | Kind::Right => true,
        _ => false,
    }
}

// A token as it stands in the text, quoted.
#[derive(Clone, Copy)]
struct Quoted<'t> {
    text: &'t str,
    token: Token,
}

impl fmt::Display for Quoted<'_> {
    fn fmt<W: fmt::Write>(&self, f: &mut fmt::Formatter<W>) -> fmt::Result {
        match from_utf8(self.token.span.of(self.text.as_bytes())) {
            Ok(word) => write!(f, "`{word}`"),
            Err(_) => write!(f, "what is no text"),
        }
    }
}

// What stands at a place: a token, or nothing at the end of the file.
#[derive(Clone, Copy)]
struct Found<'t> {
    text: &'t str,
    token: Option<Token>,
}

impl fmt::Display for Found<'_> {
    fn fmt<W: fmt::Write>(&self, f: &mut fmt::Formatter<W>) -> fmt::Result {
        let Some(token) = self.token else {
            return write!(f, "the end of the file");
        };
        if token.kind == Kind::LineEnd {
            return write!(f, "the end of the line");
        }
        let word = if is_word(token.kind) { "the word " } else { "" };
        let quoted = Quoted {
            text: self.text,
            token,
        };
        write!(f, "{word}{quoted}")
    }
}

/// A fault in words: what was expected, and what stands there in the text.
#[derive(Clone, Copy, Debug)]
pub struct Message<'t> {
    pub fault: Fault,
    pub text: &'t str,
}

impl fmt::Display for Message<'_> {
    fn fmt<W: fmt::Write>(&self, f: &mut fmt::Formatter<W>) -> fmt::Result {
        let text = self.text;
        match self.fault {
            Fault::Expected(wanted, token) => {
                let found = Found { text, token };
                write!(f, "expected {wanted}, found {found}")
            }
            Fault::SixthBit(token) => {
                let quoted = Quoted { text, token };
                write!(f, "expected at most five bits, found {quoted}")
            }
            Fault::Twice(token) => {
                let quoted = Quoted { text, token };
                write!(f, "expected another name, found {quoted} a second time")
            }
            Fault::Reserved(token) => {
                let quoted = Quoted { text, token };
                write!(
                    f,
                    "expected a name, found {quoted}, which means something in formulas"
                )
            }
            Fault::SecondBits(_) => write!(f, "expected one line `bits:`, found a second one"),
            Fault::LateRing(_) => {
                write!(
                    f,
                    "expected `ring:` right behind the line `bits:`, and once; found it further on"
                )
            }
            Fault::OutOfMemory => write!(f, "there is not enough memory"),
        }
    }
}

impl Fault {
    /// Where it stands in the text; without memory nothing in the text is at fault.
    pub fn span(&self, text: &str) -> Option<Span> {
        match self {
            Fault::Expected(_, Some(token))
            | Fault::SixthBit(token)
            | Fault::Twice(token)
            | Fault::Reserved(token)
            | Fault::SecondBits(token)
            | Fault::LateRing(token) => Some(token.span),
            Fault::Expected(_, None) => Some(Span {
                start: text.len(),
                end: text.len(),
            }),
            Fault::OutOfMemory => None,
        }
    }

    /// The fault in words, for the text in which it was found.
    pub fn message<'t>(&self, text: &'t str) -> Message<'t>
        ensures fault { result.fault ≡ self.now }
        ensures text { result.text.now ≡ text.now }
    {
        Message { fault: *self, text }
    }
}
