// Words: keywords, what only MONA has, and names; numbers.
ghost use Rattle.std.specs.Prelude.{◌≡◌, ℕ, ◌≤◌, length, map, IsTrue};
ghost use Rattle.std.specs.List.{prefix_len};
ghost use Rattle.tokens.specs.Spelling.{Spells, is_digit, is_letter, in_name, is_name};
ghost use Rattle.tokens.specs.Scan.{kind_in, word_kind};
ghost use Rattle.tokens.specs.declared.word.TheConstants.{KEYWORDS};

use crate::foreign::is_foreign;
use crate::kind::Kind;

/// The keywords.
pub const KEYWORDS: [(&[u8], Kind); 20] = [
    (b"ws1s", Kind::Ws1s),
    (b"var1", Kind::Var1),
    (b"var2", Kind::Var2),
    (b"pred", Kind::Predicate),
    (b"macro", Kind::Predicate),
    (b"assert", Kind::Assert),
    (b"true", Kind::True),
    (b"false", Kind::False),
    (b"ex1", Kind::Ex1),
    (b"ex2", Kind::Ex2),
    (b"all1", Kind::All1),
    (b"all2", Kind::All2),
    (b"empty", Kind::Empty),
    (b"min", Kind::Min),
    (b"max", Kind::Max),
    (b"in", Kind::In),
    (b"notin", Kind::NotIn),
    (b"sub", Kind::Sub),
    (b"union", Kind::Union),
    (b"inter", Kind::Inter),
];

/// Whether a byte is a digit.
pub fn is_digit(b: u8) -> bool
    ensures { result ≡ is_digit b }
{
    b >= b'0' && b <= b'9'
}

/// Whether a byte is a letter, as a word begins with one.
pub fn is_letter(b: u8) -> bool
    ensures { result ≡ is_letter b }
{
    (b >= b'a' && b <= b'z') || (b >= b'A' && b <= b'Z') || b == b'_'
}

fn in_name(b: u8) -> bool
    ensures { result ≡ in_name b }
{
    is_letter(b) || is_digit(b) || b == b'\'' || b == b'@' || b == b'$'
}

/// How many digits a text begins with.
pub fn digits_end(rest: &[u8]) -> usize
    ensures within { result ≤ length rest.now }
    ensures count { result ≡ prefix_len is_digit rest.now }
{
    rest.iter().take_while(|b| is_digit(**b)).count()
}

/// How many bytes that may stand in a word a text begins with.
pub fn name_end(rest: &[u8]) -> usize
    ensures within { result ≤ length rest.now }
    ensures count { result ≡ prefix_len in_name rest.now }
{
    rest.iter().take_while(|b| in_name(**b)).count()
}

// The kind that a table has for a word.
fn kind_in(mut table: &[(&[u8], Kind)], word: &[u8]) -> Option<Kind>
    ensures { result ≡ kind_in (map (λ k. (k.0.now, k.1)) table.entry.now) word.now }
{
    while let [entry, rest @ ..] = table {
        if entry.0 == word {
            return Some(entry.1);
        }
        table = rest;
    }
    None
}

fn keyword(word: &[u8]) -> Option<Kind>
    ensures { result ≡ kind_in (map (λ k. (k.0.now, k.1)) KEYWORDS) word.now }
{
    kind_in(&KEYWORDS, word)
}

/// The kind of a word: a keyword, a word that only MONA has, or a name.
pub fn word_kind(word: &[u8]) -> Kind
    ensures kind { result ≡ word_kind word.now }
    ensures spells { IsTrue (is_name word.now) → Spells result word.now }
{
    match keyword(word) {
        Some(kind) => kind,
        None => if is_foreign(word) {
            Kind::Foreign
        } else {
            Kind::Name
        },
    }
}
