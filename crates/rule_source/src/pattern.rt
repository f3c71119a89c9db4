// Patterns: what the words of a pattern ask of a module and its neighbours.
ghost use Rattle.std.specs.Prelude.{◌≡◌, ◌++◌, [], All, IfOk, OnOk};
ghost use Rattle.std.specs.List.{cons_option};
ghost use Rattle.rule_source.specs.Clash.{CanAsk};
ghost use Rattle.rule_source.specs.Patterns.{literal_of, literals_in, part_literals};

use crate::bits::Bits;
use crate::clash::clashes;
use crate::fault::Fault;
use rows::line::Pattern;
use rows::rule::{Asked, Literal, Side};
use rule_file::tree::Term;
use std::alloc::Global;

// What one word asks; `*` asks nothing.
fn literal(bits: &Bits<'_>, side: Side, term: &Term) -> Result<Option<Literal>, Fault>
    ensures { IfOk result (λ o. o ≡ literal_of bits.now side term.now) }
{
    let (asked, set) = match term {
        Term::Any(_) => return Ok(None),
        Term::Module(_) => (Asked::There, true),
        Term::Missing(_) => (Asked::There, false),
        Term::Set(name) => (Asked::Bit(bits.number(*name)?), true),
        Term::Clear(_, name) => (Asked::Bit(bits.number(*name)?), false),
    };
    Ok(Some(Literal { side, asked, set }))
}

// Puts what one word asks behind what the words before it ask.
#[tactic(auto, using(crate::proofs::NamesLaws::all_push))]
fn push_term(
    bits: &Bits<'_>,
    side: Side,
    term: &Term,
    literals: &mut Vec<Literal>,
) -> Result<(), Fault>
    ensures words { OnOk result (literals.new.items ≡ literals.old.items ++ cons_option (literal_of bits.now side term.now) []) }
    ensures can { OnOk result (All (CanAsk bits.now.layout) literals.old.items → All (CanAsk bits.now.layout) literals.new.items) }
{
    if let Some(literal) = literal(bits, side, term)? {
        if clashes(bits.layout, literals, literal) {
            return Err(Fault::Unfit(term.span()));
        }
        literals.push(literal)?;
    }
    Ok(())
}

// The words of one part, behind what the parts before it ask.
fn push_part(
    bits: &Bits<'_>,
    side: Side,
    part: &[Term],
    literals: &mut Vec<Literal>,
) -> Result<(), Fault>
    ensures words { OnOk result (literals.new.items ≡ literals.old.items ++ part_literals bits.now side part.now) }
    ensures can { OnOk result (All (CanAsk bits.now.layout) literals.old.items → All (CanAsk bits.now.layout) literals.new.items) }
{
    for term in part {
        push_term(bits, side, term, literals)?;
    }
    Ok(())
}

/// What a pattern asks, from its left part to its right; not that none stands where one always does. Fails where a name is no bit's, where nothing could fit, and for memory.
pub fn literals_of(
    alloc: Global,
    bits: &Bits<'_>,
    pattern: &rule_file::tree::Pattern,
) -> Result<Vec<Literal>, Fault>
    ensures words { IfOk result (λ ls. ls.items ≡ literals_in bits.now pattern.now) }
    ensures can { IfOk result (λ ls. All (CanAsk bits.now.layout) ls.items) }
{
    let mut literals = Vec::new(alloc);
    push_part(bits, Side::Left, &pattern.left, &mut literals)?;
    push_part(bits, Side::Own, &pattern.own, &mut literals)?;
    push_part(bits, Side::Right, &pattern.right, &mut literals)?;
    Ok(literals)
}

/// The same as a pattern of a rule.
pub fn pattern_of(
    alloc: Global,
    bits: &Bits<'_>,
    pattern: &rule_file::tree::Pattern,
) -> Result<Pattern, Fault>
    ensures words { IfOk result (λ p. p ≡ literals_in bits.now pattern.now) }
    ensures can { IfOk result (λ p. All (CanAsk bits.now.layout) p) }
{
    Ok(Pattern::new(literals_of(alloc, bits, pattern)?))
}
