// Reads a rule file: tokens into a tree. Each function reads what the tokens begin with, and gives it with the tokens behind it: what it read, written
// down again, and those behind it are the tokens that it was given. So no token is left out, and each stands in one place of the tree.
ghost use Rattle.std.specs.Prelude.{◌≡◌, ◌++◌, IfOk, length};
ghost use Rattle.std.specs.List.{flat_map};
ghost use Rattle.rule_file.specs.Covering.{Covers};
ghost use Rattle.rule_file.specs.Claims.{AreBits, claim_names, Differ};
ghost use Rattle.rule_file.specs.Kinds.{HasWord, HaveWords};
ghost use Rattle.rule_file.specs.Sections.{HaveSections, StandsIn};
ghost use Rattle.rule_file.specs.Written.{line_tokens, ring_tokens, file_tokens};

use crate::cursor::{expected, run};
use crate::fault::{Fault, Wanted};
use crate::names::{check_bits, check_claims};
use crate::section::{Section, section_behind};
use crate::statements::{heading, statement, wanted_behind};
use crate::token::{Kind, Token, tokens};
use crate::tree::{File, Line, RingLine};
use std::alloc::Global;

// The ends of lines behind a statement: one at least, or the end of the file.
fn line_ends<'a>(
    alloc: Global,
    tokens: &'a [Token],
    wanted: Wanted,
) -> Result<(Vec<Token>, &'a [Token]), Fault>
    ensures { IfOk result (λ r. r.0.items ++ r.1.now ≡ tokens.now) }
{
    let (ends, rest) = run(alloc, tokens, Kind::LineEnd)?;
    if ends.is_empty() && !rest.is_empty() {
        return Err(expected(wanted, rest));
    }
    Ok((ends, rest))
}

fn line<'a>(
    alloc: Global,
    section: Section,
    tokens: &'a [Token],
) -> Result<(Line, &'a [Token]), Fault>
    ensures words { IfOk result (λ r. line_tokens r.0 ++ r.1.now ≡ tokens.now) }
    ensures kind { IfOk result (λ r. HasWord r.0.statement) }
    ensures stands { IfOk result (λ r. StandsIn section r.0.statement) }
{
    let (statement, rest) = statement(alloc, section, tokens)?;
    let (ends, rest) = line_ends(alloc, rest, wanted_behind(&statement))?;
    Ok((Line { statement, ends }, rest))
}

// The lines below the first.
#[tactic(auto, using(crate::proofs::WrittenLaws::written_more))]
fn lines(alloc: Global, tokens: &[Token]) -> Result<Vec<Line>, Fault>
    ensures words { IfOk result (λ all. flat_map line_tokens all.items ≡ tokens.now) }
    ensures kinds { IfOk result (λ all. HaveWords all.items) }
    ensures sections { IfOk result (λ all. HaveSections all.items) }
{
    let mut all = Vec::new(alloc);
    let mut section = Section::Outside;
    let mut rest = tokens;
    while !rest.is_empty() {
        let (read, more) = line(alloc, section, rest)?;
        section = section_behind(section, &read.statement);
        all.push(read)?;
        rest = more;
    }
    Ok(all)
}

// The line `ring:`, if the tokens begin with its word.
fn ring_line<'a>(
    alloc: Global,
    tokens: &'a [Token],
) -> Result<(Option<RingLine>, &'a [Token]), Fault>
    ensures { IfOk result (λ r. ring_tokens r.0 ++ r.1.now ≡ tokens.now) }
{
    let [first, ..] = tokens else {
        return Ok((None, tokens));
    };
    if first.kind != Kind::Ring {
        return Ok((None, tokens));
    }
    let (heading, rest) = heading(tokens, Kind::Ring, Wanted::Statement)?;
    let (ends, rest) = line_ends(alloc, rest, Wanted::LineEnd)?;
    Ok((Some(RingLine { heading, ends }), rest))
}

// The names of the bits: one at least.
fn bits<'a>(
    alloc: Global,
    text: &[u8],
    tokens: &'a [Token],
) -> Result<(Vec<Token>, &'a [Token]), Fault>
    ensures words { IfOk result (λ r. r.0.items ++ r.1.now ≡ tokens.now) }
    ensures names { IfOk result (λ r. AreBits text.now r.0.items) }
{
    let (names, rest) = run(alloc, tokens, Kind::Name)?;
    if names.is_empty() {
        return Err(expected(Wanted::Name, rest));
    }
    check_bits(alloc, text, &names)?;
    Ok((names, rest))
}

// The tree of the tokens of a text.
fn file(alloc: Global, text: &[u8], tokens: &[Token]) -> Result<File, Fault>
    ensures words { IfOk result (λ f. file_tokens f ≡ tokens.now) }
    ensures kinds { IfOk result (λ f. HaveWords f.lines.items) }
    ensures sections { IfOk result (λ f. HaveSections f.lines.items) }
    ensures bits { IfOk result (λ f. AreBits text.now f.bits.items) }
    ensures claims { IfOk result (λ f. Differ text.now (claim_names f.lines.items)) }
{
    let (front, rest) = run(alloc, tokens, Kind::LineEnd)?;
    let (heading, rest) = heading(rest, Kind::Bits, Wanted::Bits)?;
    let (bits, rest) = bits(alloc, text, rest)?;
    let (ends, rest) = line_ends(alloc, rest, Wanted::NameOrEnd)?;
    let (ring, rest) = ring_line(alloc, rest)?;
    let lines = lines(alloc, rest)?;
    check_claims(alloc, text, &lines)?;
    Ok(File {
        front,
        heading,
        bits,
        ends,
        ring,
        lines,
    })
}

/// The tree of a rule file. Its tokens, written one after the other, are those of the text: nothing is left out, and each stands in one place; each
/// statement is what its first word says, and stands below the heading that it needs. It has one to five bits, none of which is called `last`; the names of the bits differ, and so do those of the claims and helpers. Fails where the text is no rule file, and for memory.
pub fn read(alloc: Global, text: &str) -> Result<File, Fault>
    ensures words { IfOk result (λ f. Covers text.now 0 (file_tokens f) (length text.now)) }
    ensures kinds { IfOk result (λ f. HaveWords f.lines.items) }
    ensures sections { IfOk result (λ f. HaveSections f.lines.items) }
    ensures bits { IfOk result (λ f. AreBits text.now f.bits.items) }
    ensures claims { IfOk result (λ f. Differ text.now (claim_names f.lines.items)) }
{
    let all = tokens(alloc, text.as_bytes())?;
    file(alloc, text.as_bytes(), &all)
}
