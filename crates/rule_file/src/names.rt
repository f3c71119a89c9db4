// The names that a file declares: at most five bits, none of which means something in formulas, and no name twice.
ghost use Rattle.std.specs.Prelude.{◌≡◌, ◌≢◌, ◌≤◌, ℕ, [], ◌++◌, IfOk, IfNone, OnOk, All, codes, length};
ghost use Rattle.std.specs.Bool.{OnFalse};
ghost use Rattle.std.specs.List.{cons_option};
ghost use Rattle.rule_file.specs.Claims.{bytes_of, claim_names, Differ};

use crate::fault::Fault;
use crate::token::Token;
use crate::tree::Line;
use std::alloc::{AllocError, Global};

const MOST_BITS: usize = 5;

// What formulas call the last place of the row.
const LAST: &[u8] = b"last";

/// The bytes of a token, as far as they are in the text.
pub fn bytes<'a>(text: &'a [u8], token: &Token) -> &'a [u8]
    ensures { result.now ≡ bytes_of text.now token.now }
{
    let rest = &text[token.span.start.min(text.len())..];
    let len = token.span.end.saturating_sub(token.span.start);
    &rest[..len.min(rest.len())]
}

// Whether a name stands among others.
fn stands_in(text: &[u8], name: &Token, others: &[Token]) -> bool
    ensures { OnFalse result (All (λ other. bytes_of text.now other ≢ bytes_of text.now name.now) others.now) }
{
    for other in others {
        if bytes(text, other) == bytes(text, name) {
            return true;
        }
    }
    false
}

// The first name that stands among those before it too.
fn twice(text: &[u8], names: &[Token]) -> Option<Token>
    ensures { IfNone result (Differ text.now names.now) }
{
    for (i, name) in names.iter().enumerate() {
        if stands_in(text, name, &names[..i]) {
            return Some(*name);
        }
    }
    None
}

// No name is given twice.
fn check_differ(text: &[u8], names: &[Token]) -> Result<(), Fault>
    ensures { IfOk result (λ _. Differ text.now names.now) }
{
    match twice(text, names) {
        Some(name) => Err(Fault::Twice(name)),
        None => Ok(()),
    }
}

// A name that formulas can have for a bit.
fn check_formula_name(alloc: Global, text: &[u8], name: &Token) -> Result<(), Fault>
    ensures { IfOk result (λ _. bytes_of text.now name.now ≢ codes "last") }
{
    if bytes(text, name) == LAST {
        return Err(Fault::Reserved(*name));
    }
    match tokens::token::tokens(alloc, bytes(text, name)) {
        Err(tokens::token::NoToken::Memory) => Err(Fault::OutOfMemory),
        Err(_) => Err(Fault::Reserved(*name)),
        Ok(read) => match &*read {
            [word] if word.kind == tokens::kind::Kind::Name => Ok(()),
            _ => Err(Fault::Reserved(*name)),
        },
    }
}

// Names that formulas can have for bits. Fails at the first that they cannot, and for memory.
fn check_formula_names(alloc: Global, text: &[u8], names: &[Token]) -> Result<(), Fault>
    ensures { IfOk result (λ _. All (λ t. bytes_of text.now t ≢ codes "last") names.now) }
{
    for name in names {
        check_formula_name(alloc, text, name)?;
    }
    Ok(())
}

/// Checks the names of the bits: that there are five at most, that they differ and that formulas can have them. Fails at the first that is wrong, and for memory.
pub fn check_bits(alloc: Global, text: &[u8], bits: &[Token]) -> Result<(), Fault>
    ensures few { IfOk result (λ _. length bits.now ≤ 5) }
    ensures bits { IfOk result (λ _. Differ text.now bits.now) }
    ensures last { IfOk result (λ _. All (λ t. bytes_of text.now t ≢ codes "last") bits.now) }
{
    check_formula_names(alloc, text, bits)?;
    check_differ(text, bits)?;
    if bits.len() > MOST_BITS {
        return Err(Fault::SixthBit(bits[MOST_BITS]));
    }
    Ok(())
}

fn push_some(names: &mut Vec<Token>, name: Option<Token>) -> Result<(), AllocError>
    ensures { OnOk result (names.new.items ≡ names.old.items ++ cons_option name []) }
{
    if let Some(name) = name {
        names.push(name)?;
    }
    Ok(())
}

// The names of the claims and helpers, in their order.
fn names_of(alloc: Global, lines: &[Line]) -> Result<Vec<Token>, AllocError>
    ensures { IfOk result (λ names. names.items ≡ claim_names lines.now) }
{
    let mut names = Vec::new(alloc);
    for line in lines {
        push_some(&mut names, line.statement.claim_name())?;
    }
    Ok(names)
}

/// Checks that no two claims or helpers have one name. Fails at the second, and for memory.
pub fn check_claims(alloc: Global, text: &[u8], lines: &[Line]) -> Result<(), Fault>
    ensures { IfOk result (λ _. Differ text.now (claim_names lines.now)) }
{
    let names = names_of(alloc, lines)?;
    check_differ(text, &names)
}
