// Lines of the table: when a line counts, and what it does.
ghost use Rattle.std.specs.Prelude.{◌≡◌, ◌++◌, ◌≤◌, All, IfOk, OnOk, length, map};
ghost use Rattle.std.specs.List.{range_with_len};
ghost use Rattle.std.specs.Option.{option_to_list};
ghost use Rattle.rule_source.specs.Clash.{CanAsk};
ghost use Rattle.rule_source.specs.Effects.{AreApart, as_was, bit_after, changed as changed_by, changes, line_in, moves as moves_by, said as said_in, value as value_in};

use crate::bits::Bits;
use crate::clash::covers;
use crate::fault::Fault;
use crate::pattern::literals_of;
use rows::line::Line;
use rows::rule::{NewBit, Side};
use rule_file::token::Token;
use rule_file::tree::{Change, Effects, Motion, Pattern, Source};
use std::alloc::Global;
use trees::position::Span;

// The bit that a change names.
fn changed(change: &Change) -> Token
    ensures { result ≡ changed_by change.now }
{
    match change {
        Change::Set(name) | Change::Clear(_, name) | Change::AsWas(name, _, _) => *name,
    }
}

// As which bit a bit comes out.
fn copied(bits: &Bits<'_>, source: &Source) -> Result<NewBit, Fault>
    ensures { IfOk result (λ n. n ≡ as_was bits.now source.now) }
{
    let (side, name) = match source {
        Source::Own(name) => (Side::Own, name),
        Source::Left(_, _, name) => (Side::Left, name),
        Source::Right(_, _, name) => (Side::Right, name),
    };
    Ok(NewBit::AsWas(side, bits.number(*name)?))
}

// The value that a change gives its bit.
fn value(bits: &Bits<'_>, change: &Change) -> Result<NewBit, Fault>
    ensures { IfOk result (λ n. n ≡ value_in bits.now change.now) }
{
    match change {
        Change::Set(_) => Ok(NewBit::Fixed(true)),
        Change::Clear(_, _) => Ok(NewBit::Fixed(false)),
        Change::AsWas(_, _, source) => copied(bits, source),
    }
}

// What is said of bit j: what changes say, behind what was said before. Fails where that is more than one thing.
fn said(
    bits: &Bits<'_>,
    j: u8,
    before: Option<NewBit>,
    changes: &[Change],
) -> Result<Option<NewBit>, Fault>
    ensures { IfOk result (λ o. option_to_list o ≡ option_to_list before ++ said_in bits.now j changes.now) }
{
    let mut said = before;
    for change in changes {
        let name = changed(change);
        if bits.number(name)? == j {
            if said.is_some() {
                return Err(Fault::Twice(name));
            }
            said = Some(value(bits, change)?);
        }
    }
    Ok(said)
}

// The value of bit j after the step: the one that a change gives it, or it stays. No two changes name it.
fn value_of(bits: &Bits<'_>, effects: &Effects, j: u8) -> Result<NewBit, Fault>
    ensures value { IfOk result (λ n. n ≡ bit_after bits.now effects.now j) }
    ensures once { OnOk result (length (said_in bits.now j (changes effects.now)) ≤ 1) }
{
    let before = said(bits, j, None, &effects.before)?;
    let new = said(bits, j, before, &effects.after)?;
    Ok(new.unwrap_or(NewBit::AsWas(Side::Own, j)))
}

fn values(alloc: Global, bits: &Bits<'_>, effects: &Effects) -> Result<Vec<NewBit>, Fault>
    ensures each { IfOk result (λ v. v.items ≡ map (bit_after bits.now effects.now) (range_with_len 0 (length bits.now.names.items))) }
    ensures apart { OnOk result (AreApart bits.now effects.now) }
{
    let mut values = Vec::new(alloc);
    for j in 0..bits.count() {
        values.push(value_of(bits, effects, j)?)?;
    }
    Ok(values)
}

fn moves(effects: &Effects) -> bool
    ensures { result ≡ moves_by effects.now.motion }
{
    match effects.motion {
        Motion::Moves(_) => true,
        Motion::Waits(_) => false,
    }
}

/// A line of the table, which has to be reached: none of the earlier lines fits wherever it does. Fails where a name is no bit's, where a bit is said
/// twice, where the line is never reached, and for memory.
pub fn line_of(
    alloc: Global,
    bits: &Bits<'_>,
    earlier: &[(Line, Span)],
    span: Span,
    when: &Pattern,
    effects: &Effects,
) -> Result<Line, Fault>
    ensures line { IfOk result (λ l. l ≡ line_in bits.now when.now effects.now) }
    ensures can { IfOk result (λ l. All (CanAsk bits.now.layout) l.when) }
    ensures apart { OnOk result (AreApart bits.now effects.now) }
{
    let when = literals_of(alloc, bits, when)?;
    for (line, place) in earlier {
        if covers(bits.layout, line.when(), &when) {
            return Err(Fault::Unreached(span, *place));
        }
    }
    Ok(Line::new(when, values(alloc, bits, effects)?, moves(effects)))
}
