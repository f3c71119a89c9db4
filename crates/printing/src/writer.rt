// Writes words as a text, with blanks between them where they have to be told apart or are easier to read.
ghost use Rattle.std.specs.Prelude.{◌≡◌, ◌∷◌, List, OnOk, string_bytes, decimal};
ghost use Rattle.tokens.specs.declared.kind.Kind.TheVariants as kind;
ghost use Rattle.tokens.specs.Words.{Word, word};
ghost use Rattle.tokens.specs.Spaced.{clings, is_apart, is_bar, ends_operand, is_inside, is_beside, gap_before, line_end, spaced};
ghost use Rattle.printing.specs.Writing.{text_with, Writes};

use std::alloc::{AllocError, Global};
use tokens::kind::Kind;

/// A text that is being written, the kind of its last word, and whether a `|` is open behind which stands a set whose places are counted.
#[derive(Drop)]
pub struct Writer {
    out: String,
    last: Kind,
    inside: bool,
}

// Whether a word that begins with a byte stands close behind what is before it.
fn clings(b: u8) -> bool
    ensures { result ≡ clings b }
{
    b == b')' || b == b'}' || b == b',' || b == b':' || b == b';'
}

// Whether a blank stands between a word of a kind and one that begins with a byte.
fn is_apart(last: Kind, b: u8) -> bool
    ensures { result ≡ is_apart last b }
{
    let close = clings(b);
    match last {
        Kind::Open | Kind::OpenSet | Kind::Semicolon => false,
        Kind::Not => b == b'=',
        Kind::Name | Kind::Empty => !(close || b == b'('),
        _ => !close,
    }
}

fn is_bar(kind: Kind) -> bool
    ensures { result ≡ is_bar kind }
{
    match kind {
        Kind::Or => true,
        _ => false,
    }
}

// Whether an operand can end with a word of a kind.
fn ends_operand(kind: Kind) -> bool
    ensures { result ≡ ends_operand kind }
{
    match kind {
        Kind::Name
        | Kind::Number
        | Kind::True
        | Kind::False
        | Kind::Empty
        | Kind::Close
        | Kind::CloseSet => true,
        _ => false,
    }
}

// Whether a `|` is open behind a word of a kind.
fn is_inside(last: Kind, inside: bool, kind: Kind) -> bool
    ensures { result ≡ is_inside last inside kind }
{
    match kind {
        Kind::Or => !(inside || ends_operand(last)),
        _ => inside,
    }
}

// Whether one of two words is `|`, within two of which no blank stands beside them.
fn is_beside(last: Kind, inside: bool, kind: Kind) -> bool
    ensures { result ≡ is_beside last inside kind }
{
    inside && (is_bar(last) || is_bar(kind))
}

// What stands between a word of a kind and another.
fn gap_before(last: Kind, inside: bool, kind: Kind, text: &str) -> &'static str
    ensures { result.now ≡ gap_before last inside kind text.now }
{
    let [b, ..] = text.as_bytes() else {
        return "";
    };
    if !is_beside(last, inside, kind) && is_apart(last, *b) {
        return " ";
    }
    ""
}

// What stands behind a word of a kind.
fn line_end(kind: Kind) -> &'static str
    ensures { result.now ≡ line_end kind }
{
    match kind {
        Kind::Semicolon => "\n",
        _ => "",
    }
}

impl Writer {
    /// A text that is empty.
    pub fn new(heap: Global) -> Writer
        ensures { (ws : List Word) → text_with result ws ≡ spaced ws }
    {
        Writer {
            out: String::new(heap),
            last: Kind::Semicolon,
            inside: false,
        }
    }

    /// Writes a word.
    ///
    /// # Errors
    /// There is not enough memory.
    pub fn word(&mut self, kind: Kind, text: &str) -> Result<(), AllocError>
        ensures { OnOk result (Writes self.old self.new (λ rest. word kind text.now ∷ rest)) }
    {
        let inside = is_inside(self.last, self.inside, kind);
        self.out
            .push_str(gap_before(self.last, self.inside, kind, text))?;
        self.out.push_str(text)?;
        self.out.push_str(line_end(kind))?;
        self.last = kind;
        self.inside = inside;
        Ok(())
    }

    /// Writes a number.
    ///
    /// # Errors
    /// There is not enough memory.
    pub fn number(&mut self, n: u32) -> Result<(), AllocError>
        ensures { OnOk result (Writes self.old self.new (λ rest. word kind.Number (decimal n) ∷ rest)) }
    {
        let digits = format!(in *self.out.allocator(); "{n}")?;
        self.word(Kind::Number, digits.as_str())
    }

    /// What was written.
    pub fn into_text(self) -> String
        ensures { string_bytes result ≡ string_bytes self.out }
    {
        self.out
    }
}
