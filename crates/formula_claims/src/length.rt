// How many bytes the claim of a formula takes. A claim can be as long as 3 to the depth of its terms, so this is counted before the claim is made.
// Numbers stop at usize::MAX.
ghost use Rattle.std.specs.Prelude.{◌≡◌, ℕ, ◌+◌, min, true};
ghost use Rattle.formula_claims.specs.Lengths;

use crate::one_place::relation_of;
use crate::sure::{is_sure, is_sure_in, sure};
use formulas::formula::{Formula, Group, Place};
use kinds::atom::Atom;

/// The bytes of the formula's claim, or where it is not to hold of its opposite's.
pub fn formula_length(formula: &Formula, holds: bool) -> usize
    ensures { result ≡ min (Lengths.formula_length formula.now holds) usize.MAX }
{
    match formula {
        Formula::True => signed(3, holds),
        Formula::Same(s, t) => signed(same_length(s, t), holds),
        Formula::Less(s, t) => signed(less_length(s, t), holds),
        Formula::In(t, s) => signed(about_length(t, is_sure_in(s), group_length(s)), holds),
        Formula::Sub(s, t) => signed(within_length(s, t), holds),
        Formula::Count(s, _) => signed(counted_length(s), holds),
        Formula::Not(a) => formula_length(a, !holds),
        Formula::And(a, b) => {
            let both = sum(formula_length(a, true), formula_length(b, true), 1);
            signed(both, holds)
        }
        Formula::Or(a, b) => {
            let neither = sum(formula_length(a, false), formula_length(b, false), 1);
            signed(neither, !holds)
        }
        Formula::Implies(a, b) => {
            let fails = sum(formula_length(a, true), formula_length(b, false), 1);
            signed(fails, !holds)
        }
        Formula::Some1(x, a) => {
            let some = match relation_of(*x, a) {
                Some(relation) => Atom::Related(relation).length(),
                None => some_length(sure(a, true, *x), formula_length(a, true)),
            };
            signed(some, holds)
        }
        Formula::All1(x, a) => signed(
            some_length(sure(a, false, *x), formula_length(a, false)),
            !holds,
        ),
        Formula::Some2(_, a) => signed(formula_length(a, true).saturating_add(2), holds),
        Formula::All2(_, a) => signed(formula_length(a, false).saturating_add(2), !holds),
    }
}

// The opposite of a claim takes a byte more.
fn signed(n: usize, holds: bool) -> usize
    ensures { (m : ℕ) → n ≡ min m usize.MAX → result ≡ min (m + Lengths.sign_length holds) usize.MAX }
{
    if holds { n } else { n.saturating_add(1) }
}

// There is a place of which a claim of n bytes holds.
fn some_length(sure: bool, n: usize) -> usize
    ensures { (m : ℕ) → n ≡ min m usize.MAX → result ≡ min (m + Lengths.some_length sure) usize.MAX }
{
    n.saturating_add(if sure { 2 } else { 5 })
}

fn sum(a: usize, b: usize, c: usize) -> usize
    ensures { result ≡ min (a + b + c) usize.MAX }
{
    a.saturating_add(b).saturating_add(c)
}

#[cycle(lengths)]
fn place_length(place: &Place) -> usize
    ensures { result ≡ min (Lengths.place_length place.now) usize.MAX }
{
    match place {
        Place::Named(_) | Place::First => 6,
        Place::Succ(t) => match &**t {
            Place::Named(_) => 3,
            t => place_length(t).saturating_add(6),
        },
        Place::Prev(t) => match &**t {
            Place::Named(_) => 20,
            t => some_length(is_sure(t), place_length(t).saturating_add(21)),
        },
        Place::Least(s) | Place::Most(s) => {
            let thrice = group_length(s).saturating_mul(3).saturating_add(20);
            some_length(is_sure_in(s), thrice)
        }
    }
}

#[cycle(lengths)]
fn group_length(group: &Group) -> usize
    ensures { result ≡ min (Lengths.group_length group.now) usize.MAX }
{
    match group {
        Group::Named(_) => 6,
        Group::Empty => 4,
        Group::Only(t) => place_length(t),
        Group::Union(s, t) => sum(group_length(s), group_length(t), 4),
        Group::Inter(s, t) => sum(group_length(s), group_length(t), 1),
        Group::Minus(s, t) => sum(group_length(s), group_length(t), 2),
    }
}

// A claim of n bytes about a place, sure of it or not: where the place has no name, a set stands for it.
fn about_length(place: &Place, sure: bool, n: usize) -> usize
    ensures { (m : ℕ) → n ≡ min m usize.MAX → result ≡ min (Lengths.about_length place.now (Lengths.place_length place.now) sure m) usize.MAX }
{
    match place {
        Place::Named(_) => n,
        t => some_length(is_sure(t) || sure, sum(place_length(place), n, 1)),
    }
}

fn same_length(s: &Place, t: &Place) -> usize
    ensures { result ≡ min (Lengths.same_length s.now t.now) usize.MAX }
{
    match s {
        Place::Named(_) => place_length(t),
        _ => about_length(t, is_sure(s), place_length(s)),
    }
}

fn less_length(s: &Place, t: &Place) -> usize
    ensures { result ≡ min (Lengths.about_length s.now (Lengths.place_length s.now) true (Lengths.about_length t.now (Lengths.place_length t.now) true 3)) usize.MAX }
{
    about_length(s, true, about_length(t, true, 3))
}

// Each place of which a claim of i bytes holds is one of t.
fn each_length(sure: bool, i: usize, t: &Group) -> usize
    ensures { (m : ℕ) → i ≡ min m usize.MAX → result ≡ min (Lengths.each_length sure m t.now) usize.MAX }
{
    some_length(sure, sum(i, group_length(t), 3))
}

fn within_length(s: &Group, t: &Group) -> usize
    ensures { result ≡ min (Lengths.within_length s.now t.now) usize.MAX }
{
    match s {
        Group::Named(_) => set_within_length(t),
        Group::Empty => 3,
        Group::Only(p) => match &**p {
            Place::Named(_) => set_within_length(t),
            p => each_length(is_sure(p), place_length(p), t),
        },
        Group::Union(r, s) => sum(within_length(r, t), within_length(s, t), 1),
        _ => each_length(is_sure_in(s), group_length(s), t),
    }
}

fn set_within_length(t: &Group) -> usize
    ensures { result ≡ min (Lengths.set_within_length t.now) usize.MAX }
{
    match t {
        Group::Named(_) => 3,
        Group::Empty => 7,
        Group::Only(p) => match &**p {
            Place::Named(_) => 3,
            p => some_length(true, sum(place_length(p), 6, 3)),
        },
        Group::Inter(s, t) => sum(set_within_length(s), set_within_length(t), 1),
        _ => each_length(true, 6, t),
    }
}

// Each place of s, tried as a set, is one of a set.
fn within_set_length(s: &Group) -> usize
    ensures { result ≡ min (Lengths.within_set_length s.now) usize.MAX }
{
    some_length(is_sure_in(s), group_length(s).saturating_add(9))
}

fn counted_length(s: &Group) -> usize
    ensures { result ≡ min (Lengths.counted_length s.now) usize.MAX }
{
    match s {
        Group::Named(_) => 4,
        _ => sum(set_within_length(s), within_set_length(s), 8),
    }
}
