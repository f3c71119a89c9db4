// What is found of one or more parts of a claim.
ghost use Rattle.kept_check.specs.Found.{Earlier};
ghost use Rattle.kept_check.specs.declared.found.Found.TheVariants.{First};

use crate::answer::TooLarge;
use keeping::moment::Moment;
use std::cmp::Ordering;
use words::order::compare;

/// No row shows that they are not kept; this one does so first, at that moment; or one of them is too large.
#[derive(Debug, Drop)]
pub enum Found {
    Nothing,
    First(Moment, Vec<u32>),
    TooLarge(TooLarge),
}

// The same where of the first there is a row.
fn with_first(m: Moment, u: Vec<u32>, y: Found) -> Found
    ensures { Earlier (First m u) y result }
{
    match y {
        Found::TooLarge(large) => Found::TooLarge(large),
        Found::Nothing => Found::First(m, u),
        Found::First(l, w) => {
            if compare(&u, &w) == Ordering::Greater {
                Found::First(l, w)
            } else {
                Found::First(m, u)
            }
        }
    }
}

/// What is found of two from what is found of each: the earlier of two rows, where nothing is too large.
pub fn earlier(x: Found, y: Found) -> Found
    ensures { Earlier x y result }
{
    match x {
        Found::TooLarge(large) => Found::TooLarge(large),
        Found::Nothing => y,
        Found::First(m, u) => with_first(m, u, y),
    }
}
