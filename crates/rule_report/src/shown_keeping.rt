// The claims that tell whether something is kept: as texts, and as bytes.
ghost use Rattle.std.specs.Prelude.{◌≡◌, ◌+◌, ◌^◌, ◌<◌, IfOk, Some, length, map, string_bytes};
ghost use Rattle.kept_check.specs.Parts.{parts};
ghost use Rattle.rule_report.specs.ShownKeeping.{AreShown, IsShown, IsShownAt, heading};

use crate::answer::Asked;
use crate::shown_claim::shown;
use crate::stop::Stop;
use formulas::formula::Formula;
use keeping::moment::Moment;
use kept_check::parts::put_parts;
use kept_claims::breach::claim_of;
use kept_claims::kept::Keeping;
use std::alloc::Global;
use std::fmt;

// The line before the claim about the part with that number at that moment.
#[derive(Clone, Copy)]
struct Heading(usize, Moment);

impl fmt::Display for Heading {
    ghost output = { λ line. Some (heading line.0 line.1) };

    fn fmt<W: fmt::Write>(&self, f: &mut fmt::Formatter<W>) -> fmt::Result {
        let number = self.0;
        match self.1 {
            Moment::Start => write!(f, "    part {number}, at the start:\n"),
            Moment::Step => write!(f, "    part {number}, in a step:\n"),
        }
    }
}

// The claim about the part with that number at that moment.
fn shown_at(
    alloc: Global,
    asked: Asked<'_, '_>,
    keeping: &Keeping<'_>,
    part: &Formula,
    heading: Heading,
) -> Result<String, Stop>
    ensures { IfOk result (λ words. IsShownAt asked.entry.options.now keeping.now part.now heading.0 heading.1 (string_bytes words)) }
{
    let claim = claim_of(alloc, keeping, part, heading.1)?;
    let shown = shown(alloc, asked, keeping.rule.bits as usize + 1, &claim)?;
    Ok(format!(in alloc; "{heading}{shown}")?)
}

// The claims about these parts, the first of which has that number.
fn shown_parts(
    alloc: Global,
    asked: Asked<'_, '_>,
    keeping: &Keeping<'_>,
    parts: &[&Formula],
    number: usize,
) -> Result<String, Stop>
    requires { number + length parts.now < 2 ^ 64 }
    ensures { IfOk result (λ words. AreShown asked.entry.options.now keeping.now (map (λ d. d.now) parts.now) number (string_bytes words)) }
{
    let [part, rest @ ..] = parts else {
        return Ok(String::new(alloc));
    };
    let start = shown_at(alloc, asked, keeping, part, Heading(number, Moment::Start))?;
    let step = shown_at(alloc, asked, keeping, part, Heading(number, Moment::Step))?;
    let others = shown_parts(alloc, asked, keeping, rest, number + 1)?;
    Ok(format!(in alloc; "{start}{step}{others}")?)
}

/// The claims that tell whether it is kept, two for each part, as the options want claims shown. Fails for memory, and where a claim has no text.
pub fn shown_keeping(
    alloc: Global,
    asked: Asked<'_, '_>,
    keeping: &Keeping<'_>,
) -> Result<String, Stop>
    ensures { IfOk result (λ words. IsShown asked.entry.options.now keeping.now (string_bytes words)) }
{
    if !asked.options.show && !asked.options.bytes {
        return Ok(String::new(alloc));
    }
    let mut parts = Vec::new(alloc);
    put_parts(&mut parts, &keeping.claim)?;
    shown_parts(alloc, asked, keeping, &parts, 1)
}
