// Texts in an XML text: signs that would be read as markup get a name, and what may not stand there at all is replaced.
ghost use Rattle.std.specs.Prelude.{◌≡◌, MatchOption, Some, encode_utf8};
ghost use Rattle.diagram.specs.Escapes.{is_forbidden, escape_of, escaped};

use std::fmt;

// Whether a character may not stand in an XML text: control characters but for tab, line feed and carriage return, and two codes
// that are no character.
fn is_forbidden(c: char) -> bool
    ensures { result ≡ is_forbidden c }
{
    match c {
        '\t' | '\n' | '\r' => false,
        '\0'..='\x1f' | '\u{fffe}' | '\u{ffff}' => true,
        _ => false,
    }
}

// What stands for a character, if not the character itself.
fn replacement(c: char) -> Option<&'static str>
    ensures { MatchOption result (escape_of c ≡ encode_utf8 c) (λ name. escape_of c ≡ name.now) }
{
    if is_forbidden(c) {
        return Some("\u{fffd}");
    }
    match c {
        '&' => Some("&amp;"),
        '<' => Some("&lt;"),
        '>' => Some("&gt;"),
        '"' => Some("&quot;"),
        '\'' => Some("&apos;"),
        _ => None,
    }
}

// A character, as it stands there.
#[derive(Clone, Copy)]
struct Escape(char);

impl fmt::Display for Escape {
    ghost output = { λ escape. Some (escape_of escape.0) };

    fn fmt<W: fmt::Write>(&self, f: &mut fmt::Formatter<W>) -> fmt::Result {
        let c = self.0;
        match replacement(c) {
            Some(name) => write!(f, "{name}"),
            None => write!(f, "{c}"),
        }
    }
}

/// A text that prints so that a reader of XML reads the text back, with U+FFFD for each character that may not stand there.
#[derive(Clone, Copy, Debug)]
pub struct Escaped<'a>(pub &'a str);

impl fmt::Display for Escaped<'_> {
    ghost output = { λ text. Some (escaped text.0.now) };

    fn fmt<W: fmt::Write>(&self, f: &mut fmt::Formatter<W>) -> fmt::Result {
        for c in self.0.chars() {
            let escape = Escape(c);
            write!(f, "{escape}")?;
        }
        Ok(())
    }
}
