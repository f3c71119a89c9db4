// What is wrong with a rule file, and how it is shown: FILE:LINE:COLUMN, what was expected and what stands there, and the line with a caret under the place.
ghost use Rattle.std.specs.Prelude.{◌≡◌};

use rule_file::token::Token;
use rules::known::Unsound;
use std::alloc::{AllocError, AllocFailed};
use std::fmt;
use std::str::from_utf8;
use trees::beside::beside;
use trees::position::{Span, position_of};

/// Why a file gives no rule.
#[derive(Debug, Drop)]
pub enum Fault {
    // it is not of the form
    Form(rule_file::fault::Fault),
    // no bit has this name
    Bit(Token),
    NoBits,
    // a pattern, and the word because of which nothing fits it
    Unfit(Span),
    // a line of the table, and the line before it that fits wherever it does
    Unreached(Span, Span),
    // a line of the table says this bit twice
    Twice(Token),
    // a module of a row says this bit twice
    TwiceInModule(Token),
    // this statement claims nothing
    NoClaim(Span),
    // this is claimed to be kept, and the file does not say how a run may begin
    NoStart(Token),
    // what is wrong in a formula, and where
    Formula(String, Option<Span>),
    // what is read names a bit or a set that no module has
    Unsound(Unsound),
    Memory,
}

impl From<AllocError> for Fault {
    fn from(_error: AllocError) -> Fault {
        Fault::Memory
    }
}

impl<T: Drop> From<AllocFailed<T>> for Fault {
    fn from(_error: AllocFailed<T>) -> Fault {
        Fault::Memory
    }
}

impl From<rule_file::fault::Fault> for Fault {
    fn from(fault: rule_file::fault::Fault) -> Fault {
        Fault::Form(fault)
    }
}

impl From<Unsound> for Fault {
    fn from(unsound: Unsound) -> Fault {
        match unsound {
            Unsound::OutOfMemory => Fault::Memory,
            other => Fault::Unsound(other),
        }
    }
}

// The words of a span.
fn found(text: &str, span: Span) -> &str {
    from_utf8(span.of(text.as_bytes())).unwrap_or("what is no text")
}

/// A fault in words: what was expected, and what stands there in the text.
#[derive(Clone, Copy, Debug)]
pub struct Message<'f, 't> {
    pub fault: &'f Fault,
    pub text: &'t str,
}

impl fmt::Display for Message<'_, '_> {
    fn fmt<W: fmt::Write>(&self, f: &mut fmt::Formatter<W>) -> fmt::Result {
        let text = self.text;
        match self.fault {
            Fault::Form(fault) => write!(f, "{}", fault.message(text)),
            Fault::Bit(token) => {
                let word = found(text, token.span);
                write!(f, "expected the name of a bit, found `{word}`")
            }
            Fault::NoBits => write!(f, "expected the name of a bit, found none"),
            Fault::Unfit(span) => {
                let word = found(text, *span);
                write!(
                    f,
                    "expected a pattern that some module fits; because of `{word}` none fits this one"
                )
            }
            Fault::Unreached(_, earlier) => {
                let line = position_of(text.as_bytes(), earlier.start).line;
                write!(
                    f,
                    "expected a line that is reached; line {line} fits wherever this one does"
                )
            }
            Fault::Twice(token) => {
                let word = found(text, token.span);
                write!(
                    f,
                    "expected each bit once in a line, found `{word}` a second time"
                )
            }
            Fault::TwiceInModule(token) => {
                let word = found(text, token.span);
                write!(
                    f,
                    "expected each bit once in a module, found `{word}` a second time"
                )
            }
            Fault::NoClaim(span) => {
                let word = found(text, *span);
                write!(f, "expected `never` or `claim`, found `{word}`")
            }
            Fault::NoStart(_) => write!(
                f,
                "expected a line `start:` in a file that claims what is kept"
            ),
            Fault::Formula(message, _) => write!(f, "{message}"),
            Fault::Unsound(unsound) => write!(f, "{unsound}"),
            Fault::Memory => write!(f, "there is not enough memory"),
        }
    }
}

/// A fault with its place: `FILE:LINE:COLUMN: message`, the line and a caret; without a place `FILE: message`.
#[derive(Clone, Copy, Debug)]
pub struct Shown<'p, 'f, 't> {
    pub file: &'p str,
    pub message: Message<'f, 't>,
}

impl fmt::Display for Shown<'_, '_, '_> {
    fn fmt<W: fmt::Write>(&self, f: &mut fmt::Formatter<W>) -> fmt::Result {
        let (file, message) = (self.file, self.message);
        match message.fault.span(message.text) {
            Some(span) => write!(
                f,
                "{}",
                beside(file, message.text.as_bytes(), span, message)
            ),
            None => writeln!(f, "{file}: {message}"),
        }
    }
}

impl Fault {
    /// Where it stands in the text, if something in the text is at fault.
    pub fn span(&self, text: &str) -> Option<Span> {
        match self {
            Fault::Form(fault) => fault.span(text),
            Fault::Bit(token)
            | Fault::Twice(token)
            | Fault::TwiceInModule(token)
            | Fault::NoStart(token) => Some(token.span),
            Fault::Unfit(span) | Fault::Unreached(span, _) | Fault::NoClaim(span) => Some(*span),
            Fault::Formula(_, span) => *span,
            Fault::NoBits | Fault::Unsound(_) | Fault::Memory => None,
        }
    }

    /// The fault in words, for the text in which it was found.
    pub fn message<'f, 't>(&'f self, text: &'t str) -> Message<'f, 't>
        ensures fault { result.fault.now ≡ self.now }
        ensures text { result.text.now ≡ text.now }
    {
        Message { fault: self, text }
    }

    /// The fault with its place, for the file and the text in which it was found.
    pub fn shown<'p, 'f, 't>(&'f self, file: &'p str, text: &'t str) -> Shown<'p, 'f, 't>
        ensures file { result.file.now ≡ file.now }
        ensures fault { result.message.fault.now ≡ self.now }
        ensures text { result.message.text.now ≡ text.now }
    {
        Shown {
            file,
            message: self.message(text),
        }
    }
}
