// The tokens of a text. Blanks, and comments from `#` to the end of the line, stand between them.
ghost use Rattle.std.specs.Prelude.{◌≡◌, ◌⊎◌, ℕ, ◌<◌, ◌≤◌, length, take, IfOk, IfErr, IfSome, Some, None};
ghost use Rattle.tokens.specs.Covering.{Covers};
ghost use Rattle.tokens.specs.Spelling.{Spells};
ghost use Rattle.tokens.specs.Scan.{front, scan};
ghost use Rattle.tokens.specs.Words.{words};
ghost use Rattle.tokens.specs.declared.token.NoToken.TheVariants.{Memory};

use crate::gap::gap;
use crate::kind::Kind;
use crate::sign::sign;
use crate::word::{digits_end, is_digit, is_letter, name_end, word_kind};
use std::alloc::{AllocError, AllocFailed, Global};
use trees::position::Span;

/// A token: its kind, and where it stands.
#[derive(Clone, Copy, Debug)]
pub struct Token {
    pub kind: Kind,
    pub span: Span,
}

/// Why a text has no tokens: a byte with which none begins, or that there is not enough memory.
#[derive(Clone, Copy, Debug, PartialEq, Eq)]
pub enum NoToken {
    Byte(Span),
    Memory,
}

impl From<AllocFailed<Token>> for NoToken {
    ghost from_gives = { λ _ e. e ≡ Memory };

    fn from(_error: AllocFailed<Token>) -> NoToken {
        NoToken::Memory
    }
}

// The kind and the length of the token that a text begins with.
fn front(rest: &[u8]) -> Option<(Kind, usize)>
    ensures within { IfSome result (λ r. (0 < r.1) × (r.1 ≤ length rest.now)) }
    ensures spells { IfSome result (λ r. Spells r.0 (take r.1 rest.now)) }
    ensures front { result ≡ front rest.now }
{
    let [first, ..] = rest else {
        return None;
    };
    if is_digit(*first) {
        return Some((Kind::Number, digits_end(rest)));
    }
    if is_letter(*first) {
        let len = name_end(rest);
        return Some((word_kind(&rest[..len]), len));
    }
    sign(rest)
}

/// The tokens of a text, in their order: between them, before the first and behind the last stand blanks and comments only, and each is the longest that
/// could stand there.
///
/// # Errors
///
/// The first byte with which no token begins, or that there is not enough memory.
pub fn tokens(heap: Global, text: &[u8]) -> Result<Vec<Token>, NoToken>
    ensures covers { IfOk result (λ all. Covers text.now 0 all.items (length text.now)) }
    ensures words { IfOk result (λ all. scan text.now ≡ Some (words text.now all.items)) }
    ensures fails { IfErr result (λ e. (e ≡ Memory) ⊎ (scan text.now ≡ None)) }
{
    let mut all = Vec::new(heap);
    let mut at = gap(text);
    while at < text.len() {
        let Some((kind, len)) = front(&text[at..]) else {
            return Err(NoToken::Byte(Span {
                start: at,
                end: at + 1,
            }));
        };
        let end = at + len;
        all.push(Token {
            kind,
            span: Span { start: at, end },
        })?;
        at = end + gap(&text[end..]);
    }
    Ok(all)
}
