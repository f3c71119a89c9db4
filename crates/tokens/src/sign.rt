// Signs, of one to three bytes.
ghost use Rattle.std.specs.Prelude.{◌≡◌, ℕ, ◌<◌, ◌≤◌, length, take, map, IfSome};
ghost use Rattle.tokens.specs.Spelling.{Spells};
ghost use Rattle.tokens.specs.Scan.{sign_in, sign_at};

use crate::kind::Kind;

/// The signs, a longer one before what it begins with.
pub const SIGNS: [(&[u8], Kind); 28] = [
    (b"<=>", Kind::Iff),
    (b"<=", Kind::AtMost),
    (b">=", Kind::AtLeast),
    (b"~=", Kind::Differs),
    (b"=>", Kind::Implies),
    (b"<", Kind::Less),
    (b">", Kind::Greater),
    (b"~", Kind::Not),
    (b"=", Kind::Equal),
    (b"&", Kind::And),
    (b"|", Kind::Or),
    (b"\\", Kind::Without),
    (b"+", Kind::Plus),
    (b"-", Kind::Minus),
    (b"(", Kind::Open),
    (b")", Kind::Close),
    (b"{", Kind::OpenSet),
    (b"}", Kind::CloseSet),
    (b",", Kind::Comma),
    (b":", Kind::Colon),
    (b";", Kind::Semicolon),
    (b"*", Kind::Foreign),
    (b"/", Kind::Foreign),
    (b"%", Kind::Foreign),
    (b".", Kind::Foreign),
    (b"[", Kind::Foreign),
    (b"]", Kind::Foreign),
    (b"^", Kind::Foreign),
];

// The kind and the length of the first sign of a table that a text begins with.
fn sign_in(mut table: &[(&[u8], Kind)], text: &[u8]) -> Option<(Kind, usize)>
    ensures within { IfSome result (λ r. r.1 ≤ length text.now) }
    ensures sign { result ≡ sign_in (map (λ k. (k.0.now, k.1)) table.entry.now) text.now }
{
    while let [entry, rest @ ..] = table {
        if text.starts_with(entry.0) {
            return Some((entry.1, entry.0.len()));
        }
        table = rest;
    }
    None
}

/// The kind and the length of the sign that a text begins with.
pub fn sign(text: &[u8]) -> Option<(Kind, usize)>
    ensures within { IfSome result (λ r. (0 < r.1) × (r.1 ≤ length text.now)) }
    ensures spells { IfSome result (λ r. Spells r.0 (take r.1 text.now)) }
    ensures sign { result ≡ sign_at text.now }
{
    sign_in(&SIGNS, text)
}
