// Which claims are sure of a place: hold only if the set that stands for it is a place.
ghost use Rattle.std.specs.Prelude.{◌≡◌};
ghost use Rattle.translation.specs.Translation;

use crate::one_place::{is_named, relation_of};
use formulas::formula::{Formula, Group, Place};

// The claim that a set is the place.
pub fn is_sure(place: &Place) -> bool
    ensures { result ≡ Translation.is_sure place.now }
{
    match place {
        Place::Named(_) | Place::Succ(_) => true,
        _ => false,
    }
}

// The claim that it lies in the set.
pub fn is_sure_in(group: &Group) -> bool
    ensures { result ≡ Translation.is_sure_in group.now }
{
    match group {
        Group::Named(_) | Group::Empty => true,
        Group::Only(t) => is_sure(t),
        Group::Union(s, t) => is_sure_in(s) && is_sure_in(t),
        Group::Inter(s, t) => is_sure_in(s) || is_sure_in(t),
        Group::Minus(s, _) => is_sure_in(s),
    }
}

// The claim that both are the same place, of the place x.
fn sure_same(x: u32, s: &Place, t: &Place) -> bool
    ensures { result ≡ Translation.sure_same x s.now t.now }
{
    match s {
        Place::Named(y) => *y == x && is_sure(t),
        _ => is_named(x, t) && is_sure(s),
    }
}

// The claim of the formula, or where it is not to hold that of its opposite, of the place x.
pub fn sure(formula: &Formula, holds: bool, x: u32) -> bool
    ensures { result ≡ Translation.sure formula.now holds x }
{
    match formula {
        Formula::True | Formula::Sub(_, _) | Formula::Count(_, _) => false,
        Formula::Same(s, t) => holds && sure_same(x, s, t),
        Formula::Less(s, t) => holds && (is_named(x, s) || is_named(x, t)),
        Formula::In(t, s) => holds && (is_named(x, t) && is_sure_in(s)),
        Formula::Not(a) => sure(a, !holds, x),
        Formula::And(a, b) => holds && (sure(a, true, x) || sure(b, true, x)),
        Formula::Or(a, b) => !holds && (sure(a, false, x) || sure(b, false, x)),
        Formula::Implies(a, b) => !holds && (sure(a, true, x) || sure(b, false, x)),
        Formula::Some1(y, a) => {
            holds && (relation_of(*y, a).is_none() && (x != *y && sure(a, true, x)))
        }
        Formula::All1(y, a) => !holds && (x != *y && sure(a, false, x)),
        Formula::Some2(_, a) => holds && sure(a, true, x),
        Formula::All2(_, a) => !holds && sure(a, false, x),
    }
}
