// What is wrong with a text: where it stands, what was expected and what stands there.
ghost use Rattle.std.specs.Prelude.{◌≡◌};
ghost use Rattle.syntax.specs.Views.{fault_of};
ghost use Rattle.syntax.specs.declared.fault.Fault.TheVariants.{Memory};

use std::alloc::{AllocError, AllocFailed, Global};
use std::str::from_utf8;
use tokens::foreign::foreign_reason;
use tokens::kind::{Kind, spelling};
use tokens::token::NoToken;
use trees::position::Span;

/// What could stand at a place.
#[derive(Clone, Copy, Debug, PartialEq, Eq)]
pub enum Wanted {
    Item,
    Operand,
    Sort,
    Modulo,
    More(Kind),
    End(Kind),
    Token(Kind),
}

#[derive(Clone, Copy, Debug, PartialEq, Eq)]
pub enum Fault {
    Expected(Wanted, Span),
    Byte(Span),
    LargeNumber(Span),
    Deep(Span),
    Memory,
}

impl From<AllocError> for Fault {
    ghost from_gives = { λ _ e. e ≡ Memory };

    fn from(_error: AllocError) -> Fault {
        Fault::Memory
    }
}

impl<T: Drop> From<AllocFailed<T>> for Fault {
    ghost from_gives = { λ _ e. e ≡ Memory };

    fn from(_error: AllocFailed<T>) -> Fault {
        Fault::Memory
    }
}

impl From<NoToken> for Fault {
    ghost from_gives = { λ e f. f ≡ fault_of e };

    fn from(error: NoToken) -> Fault {
        match error {
            NoToken::Byte(span) => Fault::Byte(span),
            NoToken::Memory => Fault::Memory,
        }
    }
}

fn put_wanted(out: &mut String, wanted: Wanted) -> Result<(), AllocError> {
    match wanted {
        Wanted::Item => {
            out.push_str("a declaration (`var1`, `var2`, `pred`, `assert`) or a formula")
        }
        Wanted::Operand => out.push_str("a formula or a term"),
        Wanted::Sort => out.push_str("`var1` or `var2`"),
        Wanted::Modulo => out.push_str("`mod`"),
        Wanted::Token(kind) => out.push_str(spelling(kind)),
        Wanted::More(kind) => {
            out.push_str("`,` or ")?;
            out.push_str(spelling(kind))
        }
        Wanted::End(kind) => {
            out.push_str(spelling(kind))?;
            out.push_str(" or an operator")
        }
    }
}

// The bytes of a span, quoted, or that the text ends there.
fn put_found(out: &mut String, text: &[u8], span: Span) -> Result<(), AllocError> {
    let bytes = span.of(text);
    if bytes.is_empty() {
        return out.push_str("the end of the text");
    }
    match from_utf8(bytes) {
        Ok(word) => {
            out.push_str("`")?;
            out.push_str(word)?;
            out.push_str("`")
        }
        Err(_) => out.push_str("a byte that is not ASCII"),
    }
}

impl Fault {
    /// Where it stands; without memory nothing in the text is at fault.
    pub fn span(&self) -> Option<Span> {
        match self {
            Fault::Expected(_, span)
            | Fault::Byte(span)
            | Fault::LargeNumber(span)
            | Fault::Deep(span) => Some(*span),
            Fault::Memory => None,
        }
    }

    // The words of a message, behind what is there.
    fn put(&self, out: &mut String, text: &[u8]) -> Result<(), AllocError> {
        match self {
            Fault::Expected(wanted, span) => {
                if let Some(reason) = foreign_reason(span.of(text)) {
                    put_found(out, text, *span)?;
                    out.push_str(": ")?;
                    out.push_str(reason)
                } else {
                    out.push_str("expected ")?;
                    put_wanted(out, *wanted)?;
                    out.push_str(", found ")?;
                    put_found(out, text, *span)
                }
            }
            Fault::Byte(span) => {
                out.push_str("expected a name, a number or a sign, found ")?;
                put_found(out, text, *span)
            }
            Fault::LargeNumber(span) => {
                out.push_str("expected a number of at most 1000, found ")?;
                put_found(out, text, *span)
            }
            Fault::Deep(_) => {
                out.push_str("expected at most 1000 parts within one another, found more")
            }
            Fault::Memory => out.push_str("there is not enough memory"),
        }
    }

    /// What was expected and what stands there, in words.
    pub fn message(&self, heap: Global, text: &[u8]) -> Result<String, AllocError> {
        let mut out = String::new(heap);
        self.put(&mut out, text)?;
        Ok(out)
    }
}
