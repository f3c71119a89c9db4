// How a text says that it is about a row: `rows;`, or in MONA's words `m2l-str;`; and that it is about a ring: `rings;`.
ghost use Rattle.std.specs.Prelude.{◌≡◌, ℕ, ◌+◌, ◌<◌, List, length, IfSome, MatchOption, Some, None, Ok};
ghost use Rattle.tokens.specs.Words.{words};
ghost use Rattle.syntax.specs.Rows.{rows_words, mona_words, rings_words, behind_word, behind_words, behind_row};
ghost use Rattle.syntax.specs.Items.{view_row, the_row, the_ring};
ghost use Rattle.syntax.specs.Views.{Gives};

use crate::fault::Fault;
use crate::source::{Source, bytes};
use std::alloc::Global;
use tokens::kind::Kind;
use tokens::token::Token;
use trees::position::Span;
use trees::tree::{Ends, Name, Row};

// The span of a word of that kind and with these bytes, if the tokens begin with one, and the tokens behind it.
fn behind_word<'a>(
    source: &Source<'_>,
    tokens: &'a [Token],
    kind: Kind,
    word: &[u8],
) -> Option<(Span, &'a [Token])>
    ensures behind { MatchOption result (behind_word kind word.now (words source.now.text.now tokens.now) ≡ None) (λ r. behind_word kind word.now (words source.now.text.now tokens.now) ≡ Some (words source.now.text.now r.1.now)) }
    ensures less { IfSome result (λ r. length r.1.now + 1 ≡ length tokens.now) }
{
    match tokens {
        [token, rest @ ..] if token.kind == kind && bytes(source.text, *token) == word => {
            Some((token.span, rest))
        }
        _ => None,
    }
}

// The span of `rows`, if `rows;` stands there, and the tokens behind it.
fn behind_rows<'a>(source: &Source<'_>, tokens: &'a [Token]) -> Option<(Span, &'a [Token])>
    ensures behind { MatchOption result (behind_words rows_words (words source.now.text.now tokens.now) ≡ None) (λ r. behind_words rows_words (words source.now.text.now tokens.now) ≡ Some (words source.now.text.now r.1.now)) }
    ensures less { IfSome result (λ r. length r.1.now < length tokens.now) }
{
    let (span, rest) = behind_word(source, tokens, Kind::Name, b"rows")?;
    let (_, rest) = behind_word(source, rest, Kind::Semicolon, b";")?;
    Some((span, rest))
}

// The span of `m2l-str`, if `m2l-str;` stands there, and the tokens behind it.
fn behind_mona<'a>(source: &Source<'_>, tokens: &'a [Token]) -> Option<(Span, &'a [Token])>
    ensures behind { MatchOption result (behind_words mona_words (words source.now.text.now tokens.now) ≡ None) (λ r. behind_words mona_words (words source.now.text.now tokens.now) ≡ Some (words source.now.text.now r.1.now)) }
    ensures less { IfSome result (λ r. length r.1.now < length tokens.now) }
{
    let (first, rest) = behind_word(source, tokens, Kind::Foreign, b"m2l")?;
    let (_, rest) = behind_word(source, rest, Kind::Minus, b"-")?;
    let (last, rest) = behind_word(source, rest, Kind::Name, b"str")?;
    let (_, rest) = behind_word(source, rest, Kind::Semicolon, b";")?;
    Some((first.to(last), rest))
}

/// Where it is said that the text is about a row, if it is said there, and the tokens behind it.
pub fn behind_row<'a>(source: &Source<'_>, tokens: &'a [Token]) -> Option<(Span, &'a [Token])>
    ensures behind { MatchOption result (behind_row (words source.now.text.now tokens.now) ≡ None) (λ r. behind_row (words source.now.text.now tokens.now) ≡ Some (words source.now.text.now r.1.now)) }
    ensures less { IfSome result (λ r. length r.1.now < length tokens.now) }
{
    match behind_rows(source, tokens) {
        Some(read) => Some(read),
        None => behind_mona(source, tokens),
    }
}

/// Where it is said that the text is about a ring, if it is said there, and the tokens behind it.
pub fn behind_ring<'a>(source: &Source<'_>, tokens: &'a [Token]) -> Option<(Span, &'a [Token])>
    ensures behind { MatchOption result (behind_words rings_words (words source.now.text.now tokens.now) ≡ None) (λ r. behind_words rings_words (words source.now.text.now tokens.now) ≡ Some (words source.now.text.now r.1.now)) }
    ensures less { IfSome result (λ r. length r.1.now < length tokens.now) }
{
    let (span, rest) = behind_word(source, tokens, Kind::Name, b"rings")?;
    let (_, rest) = behind_word(source, rest, Kind::Semicolon, b";")?;
    Some((span, rest))
}

/// The row that is said at a place, with the names that it has in every text.
pub fn named_row(heap: Global, span: Span) -> Result<Row, Fault>
    ensures { Gives (λ r. view_row r) result (Ok the_row) }
{
    let places = Name {
        text: String::from_str(heap, "row")?,
        span,
    };
    let last = Name {
        text: String::from_str(heap, "last")?,
        span,
    };
    Ok(Row {
        places,
        ends: Ends::Last(last),
    })
}

/// The ring that is said at a place, with the name that it has in every text.
pub fn named_ring(heap: Global, span: Span) -> Result<Row, Fault>
    ensures { Gives (λ r. view_row r) result (Ok the_ring) }
{
    let places = Name {
        text: String::from_str(heap, "ring")?,
        span,
    };
    Ok(Row {
        places,
        ends: Ends::Round,
    })
}
