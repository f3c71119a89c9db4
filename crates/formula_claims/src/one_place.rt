// Formulas that say in places what a relation says of sets: that a set has one place, X = {x}; that two sets have one place each and one comes
// just behind the other, X = {x} & Y = {x + 1}; or further on, X = {x} & Y = {y} & x < y. Of X = {x} the two inclusions are said, in either order, or x in X in
// place of the one. Sets are given by their names.
ghost use Rattle.std.specs.Prelude.{◌≡◌, IfSome};
ghost use Rattle.formula_claims.specs.Relations.{Named};
ghost use Rattle.translation.specs.OnePlace;

use formulas::formula::{Formula, Group, Place};
use kinds::relation::Relation;

// Whether the place is that name's.
pub fn is_named(x: u32, place: &Place) -> bool
    ensures { result ≡ OnePlace.is_named x place.now }
{
    match place {
        Place::Named(y) => *y == x,
        _ => false,
    }
}

// Whether the place is that name's, or the one behind it.
fn is_at(behind: bool, x: u32, place: &Place) -> bool
    ensures { result ≡ OnePlace.is_at behind x place.now }
{
    if !behind {
        return is_named(x, place);
    }
    match place {
        Place::Succ(t) => is_named(x, t),
        _ => false,
    }
}

// Whether the set is that place alone.
fn is_only(behind: bool, x: u32, group: &Group) -> bool
    ensures { result ≡ OnePlace.is_only behind x group.now }
{
    match group {
        Group::Only(t) => is_at(behind, x, t),
        _ => false,
    }
}

// The name of the set, if it has one.
fn name_of(group: &Group) -> Option<u32>
    ensures { result ≡ OnePlace.name_of group.now }
{
    match group {
        Group::Named(y) => Some(*y),
        _ => None,
    }
}

// The set of which the formula says that it has no place but that one.
fn no_other(behind: bool, x: u32, formula: &Formula) -> Option<u32>
    ensures { result ≡ OnePlace.no_other behind x formula.now }
{
    match formula {
        Formula::Sub(s, t) if is_only(behind, x, t) => name_of(s),
        _ => None,
    }
}

// The set of which it says that it has it.
fn has_place(behind: bool, x: u32, formula: &Formula) -> Option<u32>
    ensures { result ≡ OnePlace.has_place behind x formula.now }
{
    match formula {
        Formula::Sub(s, t) if is_only(behind, x, s) => name_of(t),
        Formula::In(t, s) if is_at(behind, x, t) => name_of(s),
        _ => None,
    }
}

// The set of both, if it is one.
fn agreed(p: Option<u32>, q: Option<u32>) -> Option<u32>
    ensures { result ≡ OnePlace.agreed p q }
{
    match (p, q) {
        (Some(y), Some(z)) if y == z => Some(y),
        _ => None,
    }
}

// The set whose one place x is, or the place behind x, if the formula says just that.
fn point_of(behind: bool, x: u32, formula: &Formula) -> Option<u32>
    ensures { result ≡ OnePlace.point_of behind x formula.now }
{
    let Formula::And(a, b) = formula else {
        return None;
    };
    match agreed(no_other(behind, x, a), has_place(behind, x, b)) {
        Some(y) => Some(y),
        None => agreed(no_other(behind, x, b), has_place(behind, x, a)),
    }
}

// The two sets whose one places x and the place behind it are.
fn next_of(x: u32, formula: &Formula) -> Option<Relation>
    ensures found { result ≡ OnePlace.next_of x formula.now }
    ensures named { IfSome result (λ r. Named r) }
{
    let Formula::And(a, b) = formula else {
        return None;
    };
    match (point_of(false, x, a), point_of(true, x, b)) {
        (Some(y), Some(z)) => Some(Relation::Next(y as usize, z as usize)),
        _ => None,
    }
}

// Whether the formula says that x comes before y.
fn is_less(x: u32, y: u32, formula: &Formula) -> bool
    ensures { result ≡ OnePlace.is_less x y formula.now }
{
    match formula {
        Formula::Less(s, t) => is_named(x, s) && is_named(y, t),
        _ => false,
    }
}

// The two sets whose one places x and y are.
fn points_of(x: u32, y: u32, formula: &Formula) -> Option<Relation>
    ensures found { result ≡ OnePlace.points_of x y formula.now }
    ensures named { IfSome result (λ r. Named r) }
{
    let Formula::And(a, b) = formula else {
        return None;
    };
    match (point_of(false, x, a), point_of(false, y, b)) {
        (Some(k), Some(l)) => Some(Relation::Before(k as usize, l as usize)),
        _ => None,
    }
}

// The two sets whose one places x and y are, where x comes before y.
fn ordered_of(x: u32, y: u32, formula: &Formula) -> Option<Relation>
    ensures found { result ≡ OnePlace.ordered_of x y formula.now }
    ensures named { IfSome result (λ r. Named r) }
{
    match formula {
        Formula::And(a, b) if is_less(x, y, b) => points_of(x, y, a),
        _ => None,
    }
}

// The same of some place y.
fn before_of(x: u32, formula: &Formula) -> Option<Relation>
    ensures found { result ≡ OnePlace.before_of x formula.now }
    ensures named { IfSome result (λ r. Named r) }
{
    match formula {
        Formula::Some1(y, a) if x != *y => ordered_of(x, *y, a),
        _ => None,
    }
}

// What is said of sets, by their names, by that there is a place x of which the formula holds, if it is just that.
pub fn relation_of(x: u32, formula: &Formula) -> Option<Relation>
    ensures found { result ≡ OnePlace.relation_of x formula.now }
    ensures named { IfSome result (λ r. Named r) }
{
    if let Some(y) = point_of(false, x, formula) {
        return Some(Relation::Single(y as usize));
    }
    match next_of(x, formula) {
        Some(relation) => Some(relation),
        None => before_of(x, formula),
    }
}
