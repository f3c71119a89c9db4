// The claim of a question: as a text, and as bytes.
ghost use Rattle.std.specs.Prelude.{◌≡◌, false, true, [], IfOk, string_bytes};
ghost use Rattle.claims.specs.Trees.{said};
ghost use Rattle.rule_report.specs.ShownClaim.{IsShown, IsShownAs, TellsBytes};

use crate::answer::Asked;
use crate::options::Options;
use crate::stop::Stop;
use claim_text::text::text;
use claims::encode::{Refusal, encode};
use claims::tree::Claim;
use display::hex::Hex;
use rules::property::claim_of;
use rules::question::Question;
use std::alloc::Global;
use std::fmt;

// A text that prints with four blanks in front of each line.
#[derive(Clone, Copy)]
struct Indented<'a>(&'a str);

impl fmt::Display for Indented<'_> {
    fn fmt<W: fmt::Write>(&self, f: &mut fmt::Formatter<W>) -> fmt::Result {
        for line in self.0.lines() {
            writeln!(f, "    {line}")?;
        }
        Ok(())
    }
}

// The claim as a text.
fn text_of(alloc: Global, asked: Asked<'_, '_>, claim: &Claim) -> Result<String, Stop> {
    let names = asked.source.bits.set_names(alloc)?;
    let mut words = Vec::new(alloc);
    for name in &names {
        words.push(name.as_str())?;
    }
    let text = text(alloc, claim, &words)?;
    let indented = Indented(text.as_str());
    Ok(format!(in alloc; "{indented}")?)
}

// The claim's bytes, about at least so many sets, in hex digits, or why it has none.
fn bytes_of(alloc: Global, least: usize, claim: &Claim) -> Result<String, Stop>
    ensures { IfOk result (λ words. TellsBytes least (said claim.now) (string_bytes words)) }
{
    match encode(alloc, claim, least) {
        Ok(bytes) => {
            let hex = Hex(&bytes);
            Ok(format!(in alloc; "    bytes {hex}\n")?)
        }
        Err(Refusal::OutOfMemory) => Err(Stop::Memory),
        Err(refusal) => {
            let why = format!(in alloc; "{refusal}\n")?;
            Ok(format!(in alloc; "    no bytes: {why}")?)
        }
    }
}

// The claim as a text, where it is wanted.
fn wanted_text(alloc: Global, asked: Asked<'_, '_>, claim: &Claim) -> Result<String, Stop>
    ensures { IfOk result (λ words. asked.entry.options.now.show ≡ false → string_bytes words ≡ []) }
{
    if asked.options.show {
        text_of(alloc, asked, claim)
    } else {
        Ok(String::new(alloc))
    }
}

// The claim's bytes, where they are wanted.
fn wanted_bytes(
    alloc: Global,
    options: &Options,
    least: usize,
    claim: &Claim,
) -> Result<String, Stop>
    ensures wanted { IfOk result (λ words. options.now.bytes ≡ true → TellsBytes least (said claim.now) (string_bytes words)) }
    ensures unwanted { IfOk result (λ words. options.now.bytes ≡ false → string_bytes words ≡ []) }
{
    if options.bytes {
        bytes_of(alloc, least, claim)
    } else {
        Ok(String::new(alloc))
    }
}

/// A claim about at least so many sets as the options want it shown: as a text that `settle` reads, as bytes that the line tool reads, or both, or not at all.
/// Fails for memory, and where the claim has no text.
pub fn shown(
    alloc: Global,
    asked: Asked<'_, '_>,
    least: usize,
    claim: &Claim,
) -> Result<String, Stop>
    ensures { IfOk result (λ words. IsShownAs asked.entry.options.now least (said claim.now) (string_bytes words)) }
{
    let text = wanted_text(alloc, asked, claim)?;
    let bytes = wanted_bytes(alloc, asked.options, least, claim)?;
    Ok(format!(in alloc; "{text}{bytes}")?)
}

/// The claim of a question, so shown.
pub fn shown_claim(
    alloc: Global,
    asked: Asked<'_, '_>,
    question: &Question<'_>,
) -> Result<String, Stop>
    ensures { IfOk result (λ words. IsShown asked.entry.options.now question.now.rule.now question.now.property (string_bytes words)) }
{
    if !asked.options.show && !asked.options.bytes {
        return Ok(String::new(alloc));
    }
    let rule = question.rule;
    let claim = claim_of(alloc, rule, &question.property)?;
    shown(alloc, asked, rule.bits as usize + 1, &claim)
}
