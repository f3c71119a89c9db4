// A text whose tokens are read, and what the tokens that are left begin with. Each function gives what it read and the tokens behind it.
ghost use Rattle.std.specs.Prelude.{◌≡◌, ℕ, ◌+◌, ◌<◌, ◌≤◌, true, false, length, IfOk, IfSome, MatchOption, Some, None, string_bytes};
ghost use Rattle.syntax.specs.Parsing.{begins, behind, tail, ascii, value, number_of, number_at, is_mod, behind_mod, name, operator, names_at};
ghost use Rattle.tokens.specs.Words.{bytes_of, words};
ghost use Rattle.syntax.specs.Views.{Gives, names_of};

use crate::fault::{Fault, Wanted};
use crate::operators::{binary, tightness_of};
use std::alloc::Global;
use std::str::from_utf8;
use tokens::kind::Kind;
use tokens::token::Token;
use trees::position::Span;
use trees::tree::{Binary, Name, Spanned};

/// The largest number.
pub const MOST_NUMBER: u32 = 1000;

/// A text: where its last token ends, how many tokens it has, and how many expressions may be open, one within the other.
#[derive(Clone, Copy)]
pub struct Source<'t> {
    pub heap: Global,
    pub text: &'t [u8],
    pub end: usize,
    pub count: usize,
    pub open: u32,
}

/// The bytes of a token, as far as they are in the text.
pub fn bytes(text: &[u8], token: Token) -> &[u8]
    ensures { result.now ≡ bytes_of text.now token }
{
    if token.span.start <= token.span.end && token.span.end <= text.len() {
        &text[token.span.start..token.span.end]
    } else {
        &text[0..0]
    }
}

/// The span of the first token, or the place behind the last one.
pub fn span(source: &Source<'_>, tokens: &[Token]) -> Span {
    match tokens {
        [token, ..] => token.span,
        [] => Span {
            start: source.end,
            end: source.end,
        },
    }
}

/// The span of the first token, if it is of a kind, and the tokens behind it.
pub fn front<'a>(
    source: &Source<'_>,
    tokens: &'a [Token],
    kind: Kind,
) -> Option<(Span, &'a [Token])>
    ensures begins { MatchOption result (begins kind (words source.now.text.now tokens.now) ≡ false) (λ r. begins kind (words source.now.text.now tokens.now) ≡ true) }
    ensures rest { IfSome result (λ r. words source.now.text.now r.1.now ≡ tail (words source.now.text.now tokens.now)) }
    ensures less { IfSome result (λ r. length r.1.now + 1 ≡ length tokens.now) }
{
    match tokens {
        [token, rest @ ..] if token.kind == kind => Some((token.span, rest)),
        _ => None,
    }
}

/// The same where a token of the kind has to stand.
pub fn token<'a>(
    source: &Source<'_>,
    tokens: &'a [Token],
    kind: Kind,
    wanted: Wanted,
) -> Result<(Span, &'a [Token]), Fault>
    ensures gives { Gives (λ r. words source.now.text.now r.1.now) result (behind kind (words source.now.text.now tokens.now)) }
    ensures less { IfOk result (λ r. length r.1.now + 1 ≡ length tokens.now) }
{
    match front(source, tokens, kind) {
        Some(read) => Ok(read),
        None => Err(Fault::Expected(wanted, span(source, tokens))),
    }
}

// ASCII bytes as text.
fn ascii_text(bytes: &[u8]) -> Option<&str>
    ensures { MatchOption result (ascii bytes.now ≡ false) (λ s. (s.now ≡ bytes.now) × (ascii bytes.now ≡ true)) }
{
    if !is_ascii(bytes) {
        return None;
    }
    match from_utf8(bytes) {
        Ok(word) => Some(word),
        Err(_) => None,
    }
}

fn is_ascii(bytes: &[u8]) -> bool
    ensures { result ≡ ascii bytes.now }
{
    let mut rest = bytes;
    while let [b, more @ ..] = rest {
        if *b >= 128 {
            return false;
        }
        rest = more;
    }
    true
}

/// The name that the tokens begin with.
pub fn name<'a>(source: &Source<'_>, tokens: &'a [Token]) -> Result<(Name, &'a [Token]), Fault>
    ensures gives { Gives (λ r. (string_bytes r.0.text, words source.now.text.now r.1.now)) result (name (words source.now.text.now tokens.now)) }
    ensures less { IfOk result (λ r. length r.1.now + 1 ≡ length tokens.now) }
{
    match tokens {
        [token, rest @ ..] if token.kind == Kind::Name => {
            match ascii_text(bytes(source.text, *token)) {
                Some(word) => Ok((
                    Name {
                        text: String::from_str(source.heap, word)?,
                        span: token.span,
                    },
                    rest,
                )),
                None => Err(Fault::Expected(Wanted::Token(Kind::Name), token.span)),
            }
        }
        _ => Err(Fault::Expected(Wanted::Token(Kind::Name), span(source, tokens))),
    }
}

/// Names with commas between them.
pub fn names<'a>(
    source: &Source<'_>,
    tokens: &'a [Token],
) -> Result<(Vec<Name>, &'a [Token]), Fault>
    requires known { length tokens.now ≤ source.now.count }
    ensures gives { Gives (λ r. (names_of r.0.items, words source.now.text.now r.1.now)) result (names_at source.now.count (words source.now.text.now tokens.now)) }
    ensures less { IfOk result (λ r. length r.1.now < length tokens.now) }
{
    let mut all = Vec::new(source.heap);
    let (first, mut rest) = name(source, tokens)?;
    all.push(first)?;
    while let Some((_, behind)) = front(source, rest, Kind::Comma) {
        let (further, more) = name(source, behind)?;
        all.push(further)?;
        rest = more;
    }
    Ok((all, rest))
}

// What digits say, of which no more is told than that it is above the largest number.
fn decimal(bytes: &[u8]) -> u32
    ensures { result ≡ value 0 bytes.now }
{
    let mut n = 0u32;
    let mut rest = bytes;
    while let [b, more @ ..] = rest {
        n = (n * 10 + u32::from(b.saturating_sub(b'0'))).min(MOST_NUMBER + 1);
        rest = more;
    }
    n
}

/// The number that a token is.
pub fn number(source: &Source<'_>, token: Token) -> Result<u32, Fault>
    ensures { Gives (λ n. n) result (number_of (bytes_of source.now.text.now token)) }
{
    let n = decimal(bytes(source.text, token));
    if n > MOST_NUMBER {
        return Err(Fault::LargeNumber(token.span));
    }
    Ok(n)
}

/// The number that the tokens begin with.
pub fn number_at<'a>(
    source: &Source<'_>,
    tokens: &'a [Token],
) -> Result<(Spanned<u32>, &'a [Token]), Fault>
    ensures gives { Gives (λ r. (r.0.kind, words source.now.text.now r.1.now)) result (number_at (words source.now.text.now tokens.now)) }
    ensures less { IfOk result (λ r. length r.1.now + 1 ≡ length tokens.now) }
{
    match tokens {
        [token, rest @ ..] if token.kind == Kind::Number => {
            let kind = number(source, *token)?;
            let span = token.span;
            Ok((Spanned { kind, span }, rest))
        }
        _ => Err(Fault::Expected(Wanted::Token(Kind::Number), span(source, tokens))),
    }
}

// Whether a token is `mod`, which is a name elsewhere.
fn is_mod(text: &[u8], token: Token) -> bool
    ensures { result ≡ is_mod token.kind (bytes_of text.now token) }
{
    token.kind == Kind::Name && bytes(text, token) == b"mod".as_slice()
}

/// The tokens behind `mod`, where it has to stand.
pub fn behind_mod<'a>(source: &Source<'_>, tokens: &'a [Token]) -> Result<&'a [Token], Fault>
    ensures gives { Gives (λ r. words source.now.text.now r.now) result (behind_mod (words source.now.text.now tokens.now)) }
    ensures less { IfOk result (λ r. length r.now + 1 ≡ length tokens.now) }
{
    match tokens {
        [token, rest @ ..] if is_mod(source.text, *token) => Ok(rest),
        _ => Err(Fault::Expected(Wanted::Modulo, span(source, tokens))),
    }
}

/// The operator that the tokens begin with, if it binds at least as tight as `lowest`.
pub fn operator<'a>(
    source: &Source<'_>,
    tokens: &'a [Token],
    lowest: u8,
) -> Option<(Binary, &'a [Token])>
    ensures operator { MatchOption result (operator lowest (words source.now.text.now tokens.now) ≡ None) (λ r. operator lowest (words source.now.text.now tokens.now) ≡ Some r.0) }
    ensures rest { IfSome result (λ r. words source.now.text.now r.1.now ≡ tail (words source.now.text.now tokens.now)) }
    ensures less { IfSome result (λ r. length r.1.now + 1 ≡ length tokens.now) }
{
    match tokens {
        [token, rest @ ..] => match binary(token.kind) {
            Some(sign) if tightness_of(sign).level >= lowest => Some((sign, rest)),
            _ => None,
        },
        [] => None,
    }
}
