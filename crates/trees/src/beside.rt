// A message beside the line of a text that it is about.
ghost use Rattle.std.specs.Prelude.{◌≡◌, MatchOption, IsUtf8};
ghost use Rattle.trees.specs.Position.{line_of, column_of, text_of_line};

use crate::position::{Span, line_at, position_of};
use display::beside::Beside;
use std::fmt;
use std::str::from_utf8;

// The bytes as text, if they are text.
fn readable(bytes: &[u8]) -> Option<&str>
    ensures { MatchOption result (IsUtf8 bytes.now → ⊥) (λ t. (t.now ≡ bytes.now) × IsUtf8 bytes.now) }
{
    from_utf8(bytes).ok()
}

/// The message with its place in a file's text, which is where the span begins.
pub fn beside<'f, 't, M: fmt::Display>(
    file: &'f str,
    text: &'t [u8],
    span: Span,
    message: M,
) -> Beside<'f, 't, M>
    ensures file { result.file.now ≡ file.now }
    ensures line { result.line ≡ line_of text.now span.start }
    ensures column { result.column ≡ column_of text.now span.start }
    ensures text { MatchOption result.text (IsUtf8 (text_of_line text.now span.start) → ⊥) (λ t. (t.now ≡ text_of_line text.now span.start) × IsUtf8 (text_of_line text.now span.start)) }
    ensures message { result.message ≡ message }
{
    let place = position_of(text, span.start);
    Beside {
        file,
        line: place.line,
        column: place.column,
        text: readable(line_at(text, span.start)),
        message,
    }
}
