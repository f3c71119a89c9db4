// What the table says at a module's place.
ghost use Rattle.std.specs.Prelude.{◌≡◌, IfOk};
ghost use Rattle.rows.specs.Rules.{new_at};
ghost use Rattle.rows.specs.RuleLocal.{waits_line, waits_local, at_side, new_local, news_local, after_line, after_local};
ghost use Rattle.rules.specs.Local.{local_of};
ghost use Rattle.rules.specs.Numbers.{number_of};

use crate::clauses::of_pattern;
use crate::local::{Local, all, before, behind, both, either, implies, negated, non, sees};
use crate::numbers::Numbers;
use rows::line::Line;
use rows::rule::{Literal, NewBit, Side};
use std::alloc::{AllocError, Global};

// The module waits by a line for which it moves or waits, or by the others.
fn waits_line(
    alloc: Global,
    x: &Numbers,
    when: &[Literal],
    moves: bool,
    others: Box<Local>,
) -> Result<Box<Local>, AllocError>
    ensures { IfOk result (λ f. local_of f.value ≡ waits_line x.now.bits (number_of x.now) when.now moves (local_of others.value)) }
{
    if when.is_empty() {
        return if moves {
            non(alloc, all(alloc)?)
        } else {
            all(alloc)
        };
    }
    let fits = of_pattern(alloc, x, when)?;
    if moves {
        both(alloc, negated(alloc, fits)?, others)
    } else {
        either(alloc, fits, others)
    }
}

/// The module waits: the first line that fits says so, or no line fits.
pub fn of_waiting(alloc: Global, x: &Numbers, table: &[Line]) -> Result<Box<Local>, AllocError>
    ensures { IfOk result (λ f. local_of f.value ≡ waits_local x.now.bits (number_of x.now) table.now) }
{
    let [line, rest @ ..] = table else {
        return all(alloc);
    };
    let others = of_waiting(alloc, x, rest)?;
    waits_line(alloc, x, line.when(), line.moves(), others)
}

/// Set y has the place itself, or the place before or behind it.
pub fn of_side(alloc: Global, side: Side, y: u16) -> Result<Box<Local>, AllocError>
    ensures { IfOk result (λ f. local_of f.value ≡ at_side side y) }
{
    match side {
        Side::Left => before(alloc, sees(alloc, y)?),
        Side::Own => sees(alloc, y),
        Side::Right => behind(alloc, sees(alloc, y)?),
    }
}

/// The new bit is as set z says at the place.
pub fn of_new_bit(alloc: Global, x: &Numbers, z: u16, new: NewBit) -> Result<Box<Local>, AllocError>
    ensures { IfOk result (λ f. local_of f.value ≡ new_local (number_of x.now) z new) }
{
    match new {
        NewBit::Fixed(true) => sees(alloc, z),
        NewBit::Fixed(false) => non(alloc, sees(alloc, z)?),
        NewBit::AsWas(side, j) => {
            let kept = implies(alloc, sees(alloc, z)?, of_side(alloc, side, x.of_bit(j))?)?;
            let taken = implies(alloc, of_side(alloc, side, x.of_bit(j))?, sees(alloc, z)?)?;
            both(alloc, kept, taken)
        }
    }
}

/// The entry for bit j: where the line has none, the bit stays.
pub fn entry_of(bits: &[NewBit], j: u8) -> NewBit
    ensures { result ≡ new_at bits.now j j }
{
    if (j as usize) < bits.len() {
        bits[j as usize]
    } else {
        NewBit::AsWas(Side::Own, j)
    }
}

/// The listed bits are the new ones, as the line with these entries says: x numbers the bits before the step, y those after.
pub fn of_new_bits(
    alloc: Global,
    x: &Numbers,
    y: &Numbers,
    js: &[u8],
    bits: &[NewBit],
) -> Result<Box<Local>, AllocError>
    ensures { IfOk result (λ f. local_of f.value ≡ news_local (number_of x.now) (number_of y.now) js.now bits.now) }
{
    match js {
        [] => all(alloc),
        [j] => of_new_bit(alloc, x, y.of_bit(*j), entry_of(bits, *j)),
        [j, rest @ ..] => {
            let first = of_new_bit(alloc, x, y.of_bit(*j), entry_of(bits, *j))?;
            both(alloc, first, of_new_bits(alloc, x, y, rest, bits)?)
        }
    }
}

// By a line that makes the bits new, or by the others.
fn after_line(
    alloc: Global,
    x: &Numbers,
    when: &[Literal],
    new: Box<Local>,
    others: Box<Local>,
) -> Result<Box<Local>, AllocError>
    ensures { IfOk result (λ f. local_of f.value ≡ after_line x.now.bits (number_of x.now) when.now (local_of new.value) (local_of others.value)) }
{
    if when.is_empty() {
        return Ok(new);
    }
    let by_this = implies(alloc, of_pattern(alloc, x, when)?, new)?;
    let by_others = either(alloc, of_pattern(alloc, x, when)?, others)?;
    both(alloc, by_this, by_others)
}

/// The listed bits are the new ones, by the first line that fits; they stay where no line does. x numbers the bits before the step, y those after.
pub fn of_step(
    alloc: Global,
    x: &Numbers,
    y: &Numbers,
    js: &[u8],
    table: &[Line],
) -> Result<Box<Local>, AllocError>
    ensures { IfOk result (λ f. local_of f.value ≡ after_local x.now.bits (number_of x.now) (number_of y.now) js.now table.now) }
{
    let [line, rest @ ..] = table else {
        return of_new_bits(alloc, x, y, js, &[]);
    };
    let new = of_new_bits(alloc, x, y, js, line.bits())?;
    let others = of_step(alloc, x, y, js, rest)?;
    after_line(alloc, x, line.when(), new, others)
}
