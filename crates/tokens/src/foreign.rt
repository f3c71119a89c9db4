// Words and signs that only MONA has.
ghost use Rattle.std.specs.Prelude.{◌≡◌, map, is_some};
ghost use Rattle.tokens.specs.Scan.{is_in, is_foreign};

/// What only MONA has, and what is said of it.
pub const FOREIGN: [(&[u8], &str); 38] = [
    (b"ws2s", "trees are not supported"),
    (b"guide", "trees are not supported"),
    (b"universe", "trees are not supported"),
    (b"tree", "trees are not supported"),
    (b"root", "trees are not supported"),
    (b"succ", "trees are not supported"),
    (b"type", "trees are not supported"),
    (b"variant", "trees are not supported"),
    (b"sometype", "trees are not supported"),
    (b"in_state_space", "trees are not supported"),
    (
        b"m2l",
        "a text about a row begins with `rows;`, or with `m2l-str;`",
    ),
    (
        b"allpos",
        "in a text that begins with `rows;` the row's places are called `row`",
    ),
    (
        b"lastpos",
        "in a text that begins with `rows;` the row's last place is called `last`",
    ),
    (b"let0", "`let` is not supported: write a predicate"),
    (b"let1", "`let` is not supported: write a predicate"),
    (b"let2", "`let` is not supported: write a predicate"),
    (b"var0", "names of truth values are not supported"),
    (b"ex0", "names of truth values are not supported"),
    (b"all0", "names of truth values are not supported"),
    (b"import", "other files are not supported"),
    (b"export", "other files are not supported"),
    (b"include", "other files are not supported"),
    (b"restrict", "operations on automata are not supported"),
    (b"prefix", "operations on automata are not supported"),
    (b"pconst", "constants are not supported: write the number"),
    (b"const", "constants are not supported: write the number"),
    (
        b"where",
        "`where` is not supported: write `assert`, or `&` or `=>` behind the quantifier",
    ),
    (
        b"defaultwhere1",
        "`where` is not supported: write `assert`, or `&` or `=>` behind the quantifier",
    ),
    (
        b"defaultwhere2",
        "`where` is not supported: write `assert`, or `&` or `=>` behind the quantifier",
    ),
    (b"verify", "modes are not supported"),
    (b"execute", "modes are not supported"),
    (b"[", "universes are not supported"),
    (b"]", "universes are not supported"),
    (
        b"*",
        "of arithmetic there is only `+` and `-` with a number",
    ),
    (
        b"/",
        "of arithmetic there is only `+` and `-` with a number",
    ),
    (
        b"%",
        "of arithmetic there is only `+` and `-` with a number",
    ),
    (b".", "trees and intervals are not supported"),
    (b"^", "trees and intervals are not supported"),
];

// What a table says of a word.
fn reason_in(mut table: &[(&'static [u8], &'static str)], word: &[u8]) -> Option<&'static str>
    ensures { is_some result ≡ is_in (map (λ k. k.0.now) table.entry.now) word.now }
{
    while let [entry, rest @ ..] = table {
        if entry.0 == word {
            return Some(entry.1);
        }
        table = rest;
    }
    None
}

/// What a word or a sign is that only MONA has.
pub fn foreign_reason(word: &[u8]) -> Option<&'static str>
    ensures { is_some result ≡ is_foreign word.now }
{
    reason_in(&FOREIGN, word)
}

/// Whether only MONA has a word or a sign.
pub fn is_foreign(word: &[u8]) -> bool
    ensures { result ≡ is_foreign word.now }
{
    foreign_reason(word).is_some()
}
