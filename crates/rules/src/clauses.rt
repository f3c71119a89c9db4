// What a pattern says at a module's place.
ghost use Rattle.std.specs.Prelude.{◌≡◌, IfOk};
ghost use Rattle.rows.specs.RuleLocal.{same_side, on, fits_nothing, literal_local, literals_local, left_local, right_local, fits_local, allowed_local};
ghost use Rattle.rules.specs.Local.{local_of};
ghost use Rattle.rules.specs.Numbers.{number_of};

use crate::local::{Local, all, also, before, behind, both, either, negated, non, sees};
use crate::numbers::Numbers;
use rows::line::Pattern;
use rows::rule::{Literal, Side};
use std::alloc::{AllocError, Global};

/// The literal is as it says, where what is asked of is at the place itself.
pub fn of_literal(alloc: Global, x: &Numbers, p: Literal) -> Result<Box<Local>, AllocError>
    ensures { IfOk result (λ f. local_of f.value ≡ literal_local x.now.bits (number_of x.now) p) }
{
    let seen = sees(alloc, x.of_asked(p.asked))?;
    if p.set { Ok(seen) } else { non(alloc, seen) }
}

/// All of the literals are as they say, where what they ask of is at the place itself.
pub fn of_literals(alloc: Global, x: &Numbers, ps: &[Literal]) -> Result<Box<Local>, AllocError>
    ensures { IfOk result (λ f. local_of f.value ≡ literals_local x.now.bits (number_of x.now) ps.now) }
{
    match ps {
        [] => all(alloc),
        [p] => of_literal(alloc, x, *p),
        [p, rest @ ..] => both(
            alloc,
            of_literal(alloc, x, *p)?,
            of_literals(alloc, x, rest)?,
        ),
    }
}

fn is_same(a: Side, b: Side) -> bool
    ensures { result ≡ same_side a b }
{
    match (a, b) {
        (Side::Left, Side::Left) | (Side::Own, Side::Own) | (Side::Right, Side::Right) => true,
        _ => false,
    }
}

/// The literals of the pattern that ask of one side, in their order.
pub fn on_side(alloc: Global, side: Side, ps: &[Literal]) -> Result<Vec<Literal>, AllocError>
    ensures { IfOk result (λ found. found.items ≡ on side ps.now) }
{
    let mut found = Vec::new(alloc);
    for p in ps {
        if is_same(side, p.side) {
            found.push(*p)?;
        }
    }
    Ok(found)
}

/// Whether nothing at all fits too, since nothing is asked to be so.
pub fn nothing_fits(ps: &[Literal]) -> bool
    ensures { result ≡ fits_nothing ps.now }
{
    for p in ps {
        if p.set {
            return false;
        }
    }
    true
}

/// Of the left neighbour: there is one that fits; or, where nothing fits too, there is none that does not.
pub fn of_left(alloc: Global, x: &Numbers, ps: &[Literal]) -> Result<Box<Local>, AllocError>
    ensures { IfOk result (λ f. local_of f.value ≡ left_local x.now.bits (number_of x.now) ps.now) }
{
    if ps.is_empty() {
        return all(alloc);
    }
    let neighbour = of_literals(alloc, x, ps)?;
    if nothing_fits(ps) {
        let other = before(alloc, negated(alloc, neighbour)?)?;
        non(alloc, other)
    } else {
        before(alloc, neighbour)
    }
}

/// Of the right neighbour: behind each place there is one, though perhaps none of the row.
pub fn of_right(alloc: Global, x: &Numbers, ps: &[Literal]) -> Result<Box<Local>, AllocError>
    ensures { IfOk result (λ f. local_of f.value ≡ right_local x.now.bits (number_of x.now) ps.now) }
{
    if ps.is_empty() {
        return all(alloc);
    }
    behind(alloc, of_literals(alloc, x, ps)?)
}

/// The module at the place and its neighbours fit the pattern.
pub fn of_pattern(alloc: Global, x: &Numbers, ps: &[Literal]) -> Result<Box<Local>, AllocError>
    ensures { IfOk result (λ f. local_of f.value ≡ fits_local x.now.bits (number_of x.now) ps.now) }
{
    let own = of_literals(alloc, x, &on_side(alloc, Side::Own, ps)?)?;
    let left = of_left(alloc, x, &on_side(alloc, Side::Left, ps)?)?;
    let right = of_right(alloc, x, &on_side(alloc, Side::Right, ps)?)?;
    also(alloc, own, also(alloc, left, right)?)
}

/// One of the patterns fits.
pub fn of_patterns(
    alloc: Global,
    x: &Numbers,
    patterns: &[Pattern],
) -> Result<Box<Local>, AllocError>
    ensures { IfOk result (λ f. local_of f.value ≡ allowed_local x.now.bits (number_of x.now) patterns.now) }
{
    match patterns {
        [] => non(alloc, all(alloc)?),
        [p] => of_pattern(alloc, x, p.literals()),
        [p, rest @ ..] => either(
            alloc,
            of_pattern(alloc, x, p.literals())?,
            of_patterns(alloc, x, rest)?,
        ),
    }
}
