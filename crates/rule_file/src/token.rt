// The tokens of a rule file: words, signs, formulas and the ends of lines. Blanks, and comments from `#` to the end of the line, stand between them.
//
// A formula is one token, from the first byte behind the colon of `claim NAME:`, `kept NAME:`, `NAME:`, `allowed:` or `start:` to the last word on that line.
// Where a bracket is open at the end of a line it goes on in the next one. So the lexer keeps where in a line it stands (`Stage`).
ghost use Rattle.std.specs.Prelude.{◌≡◌, ℕ, ◌+◌, ◌<◌, ◌≤◌, IsTrue, IfOk, length, take, drop};
ghost use Rattle.std.specs.List.{prefix_len};
ghost use Rattle.rule_file.specs.Gaps.{in_line_byte, is_gap, ends_line};
ghost use Rattle.rule_file.specs.Covering.{Covers};

use std::alloc::{AllocError, Global};
use trees::position::Span;

/// What a token is. A word that means something in a rule file has a kind of its own; every other word is a `Name`.
#[derive(Clone, Copy, Debug, PartialEq, Eq)]
pub enum Kind {
    LineEnd,
    Name,
    Bits,
    Ring,
    Allowed,
    Table,
    Start,
    Never,
    Claim,
    Kept,
    Helpers,
    Row,
    Module,
    Missing,
    Moves,
    Waits,
    Left,
    Right,
    Colon,
    Bar,
    Star,
    Not,
    Equal,
    Dot,
    Plus,
    Arrow,
    Formula,
    // What no rule file has.
    Other,
}

/// A token and the bytes of the file where it stands.
#[derive(Clone, Copy, Debug, PartialEq, Eq)]
pub struct Token {
    pub kind: Kind,
    pub span: Span,
}

// Where in a line the next token stands, as far as that says whether a formula begins there.
#[derive(Clone, Copy, PartialEq, Eq)]
enum Stage {
    Start,
    // behind `claim` or `kept`
    Claim,
    // behind `allowed` or `start`, behind the name of a claim, and behind a name that a line begins with
    Heading,
    // behind the colon of such a heading
    Formula,
    Inside,
}

fn stage_behind(stage: Stage, kind: Kind) -> Stage {
    match (stage, kind) {
        (_, Kind::LineEnd) => Stage::Start,
        (Stage::Start, Kind::Allowed | Kind::Start | Kind::Name) => Stage::Heading,
        (Stage::Start, Kind::Claim | Kind::Kept) => Stage::Claim,
        (Stage::Claim, _) => Stage::Heading,
        (Stage::Heading, Kind::Colon) => Stage::Formula,
        _ => Stage::Inside,
    }
}

// The words that mean something in a rule file.
const WORDS: [(&[u8], Kind); 16] = [
    (b"bits", Kind::Bits),
    (b"ring", Kind::Ring),
    (b"allowed", Kind::Allowed),
    (b"table", Kind::Table),
    (b"start", Kind::Start),
    (b"never", Kind::Never),
    (b"claim", Kind::Claim),
    (b"kept", Kind::Kept),
    (b"helpers", Kind::Helpers),
    (b"row", Kind::Row),
    (b"module", Kind::Module),
    (b"none", Kind::Missing),
    (b"moves", Kind::Moves),
    (b"waits", Kind::Waits),
    (b"left", Kind::Left),
    (b"right", Kind::Right),
];

fn word_kind(word: &[u8]) -> Kind {
    for known in &WORDS {
        if known.0 == word {
            return known.1;
        }
    }
    if word.is_ascii() {
        Kind::Name
    } else {
        Kind::Other
    }
}

fn sign_kind(b: u8) -> Kind {
    match b {
        b':' => Kind::Colon,
        b'|' => Kind::Bar,
        b'*' => Kind::Star,
        b'!' => Kind::Not,
        b'=' => Kind::Equal,
        b'.' => Kind::Dot,
        b'+' => Kind::Plus,
        _ => Kind::Other,
    }
}

fn is_letter(b: u8) -> bool {
    b.is_ascii_alphabetic() || b == b'_'
}

fn in_name(b: u8) -> bool {
    is_letter(b) || b.is_ascii_digit()
}

fn is_blank(b: u8) -> bool
    ensures { result ≡ Rattle.rule_file.specs.Gaps.is_blank b }
{
    b == b' ' || b == b'\t' || b == b'\r'
}

// How many blanks a text begins with.
fn blanks(rest: &[u8]) -> usize
    ensures within { result ≤ length rest.now }
    ensures count { result ≡ prefix_len Rattle.rule_file.specs.Gaps.is_blank rest.now }
{
    rest.iter().take_while(|b| is_blank(**b)).count()
}

// How many bytes stand before the first end of a line.
fn line_len(rest: &[u8]) -> usize
    ensures within { result ≤ length rest.now }
    ensures count { result ≡ prefix_len in_line_byte rest.now }
{
    rest.iter().take_while(|b| **b != b'\n').count()
}

// How many bytes at the front of a text are blanks and a comment.
#[tactic(auto, using(crate::proofs::GapsLaws::blanks_are_gap, crate::proofs::GapsLaws::comment_is_gap))]
fn gap(rest: &[u8]) -> usize
    ensures within { result ≤ length rest.now }
    ensures gap { IsTrue (is_gap (take result rest.now)) }
{
    let free = blanks(rest);
    if free >= rest.len() {
        return free;
    }
    if rest[free] != b'#' {
        return free;
    }
    free + line_len(&rest[free..])
}

// The length of the word that a text begins with, letters that are not ASCII included: no name has those, and so a word with one is shown whole.
fn word_len(rest: &[u8]) -> usize
    ensures { result ≤ length rest.now }
{
    rest.iter()
        .take_while(|b| in_name(**b) || **b >= 128)
        .count()
}

// How many brackets are open behind a byte.
fn depth_behind(depth: usize, b: u8) -> usize {
    match b {
        b'(' | b'{' => depth.saturating_add(1),
        b')' | b'}' => depth.saturating_sub(1),
        _ => depth,
    }
}

// The length of the formula that a text begins with. `end` stands behind its last byte so far and `at` where reading goes on: between the two are
// blanks, comments and, while a bracket is open, ends of lines, so where the line ends at `at` it ends at `end`.
fn formula_len(rest: &[u8]) -> usize
    requires { 0 < length rest.now }
    ensures some { 0 < result }
    ensures within { result ≤ length rest.now }
    ensures ends { IsTrue (ends_line (drop result rest.now)) }
{
    let mut depth = depth_behind(0, rest[0]);
    let mut end = 1;
    let mut at = 1;
    while at < rest.len() {
        let next = at + gap(&rest[at..]);
        if next >= rest.len() {
            return end;
        }
        let b = rest[next];
        at = next + 1;
        if b == b'\n' {
            if depth == 0 {
                return end;
            }
            continue;
        }
        depth = depth_behind(depth, b);
        end = at;
    }
    end
}

// The kind and the length of the token that a text begins with.
fn front(stage: Stage, rest: &[u8]) -> (Kind, usize)
    requires { 0 < length rest.now }
    ensures { (0 < result.1) × (result.1 ≤ length rest.now) }
{
    let first = rest[0];
    if first == b'\n' {
        (Kind::LineEnd, 1)
    } else if stage == Stage::Formula {
        (Kind::Formula, formula_len(rest))
    } else if is_letter(first) {
        let len = word_len(rest);
        (word_kind(&rest[..len]), len.max(1))
    } else {
        sign(rest)
    }
}

// The same where neither a line ends nor a word or a formula begins.
fn sign(rest: &[u8]) -> (Kind, usize)
    requires { 0 < length rest.now }
    ensures { (0 < result.1) × (result.1 ≤ length rest.now) }
{
    if let [b'-', b'>', ..] = rest {
        return (Kind::Arrow, 2);
    }
    (sign_kind(rest[0]), word_len(rest).max(1))
}

/// The tokens of a text, in their order: between them, before the first and behind the last stand blanks and comments only. Fails for memory alone.
pub fn tokens(alloc: Global, text: &[u8]) -> Result<Vec<Token>, AllocError>
    ensures { IfOk result (λ all. Covers text.now 0 all.items (length text.now)) }
{
    let mut all = Vec::new(alloc);
    let mut stage = Stage::Start;
    let mut at = gap(text);
    while at < text.len() {
        let (kind, len) = front(stage, &text[at..]);
        let end = at + len;
        all.push(Token {
            kind,
            span: Span { start: at, end },
        })?;
        stage = stage_behind(stage, kind);
        at = end + gap(&text[end..]);
    }
    Ok(all)
}
