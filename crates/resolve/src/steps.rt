// The place so many steps from another, and what says nothing on a ring, which goes round.
ghost use Rattle.std.specs.Prelude.{◌≡◌, ◌+◌, ◌-◌, Some, None, IfOk, IfErr};
ghost use Rattle.formulas.specs.Meaning.{Env, value};
ghost use Rattle.resolve.specs.Spaces.{around, next, previous, steps, forward, back};
ghost use Rattle.resolve.specs.Scopes.{context, places_of, signature};
ghost use Rattle.resolve.specs.Faults.{IsLimit, shape_of};
ghost use Rattle.resolve.specs.declared.scope.Shape.TheVariants.{Ring};

use crate::built::{inter, least, minus, most, only, prev, succ, union};
use crate::fault::Fault;
use crate::scope::{Scope, ring_of};
use crate::terms::Resolver;
use formulas::formula::{Group, Place};
use std::alloc::{AllocError, Global};
use trees::position::Span;

// How many parts a step round a ring has, and a step back.
const PARTS_FURTHER: u32 = 5;

const PARTS_BACK: u32 = 10;

/// Fails on a ring: there no place is the first one, and none stands before another.
pub fn check_ends(scope: &Scope<'_>, span: Span) -> Result<(), Fault>
    ensures straight { IfOk result (λ _. (e : Env) → around (context scope.now e).space ≡ None) }
    ensures faults { IfErr result (λ f. (shape_of (signature scope.now) ≡ Some Ring) × f ≡ Fault.Round span) }
{
    match ring_of(scope) {
        None => Ok(()),
        Some(_) => Err(Fault::Round(span)),
    }
}

// One step further on the ring that is the set with that number: the last place of those that are the one behind and the ring's, which is place 0 of none.
fn next_on(heap: Global, place: Box<Place>, ring: u32) -> Result<Box<Place>, AllocError>
    ensures { IfOk result (λ t. (e : Env) → value t.value e ≡ next (e.groups ring) (value place.value e)) }
{
    let behind = succ(heap, place)?;
    let behind = only(heap, behind)?;
    let places = Box::new(heap, Group::Named(ring))?;
    let ahead = inter(heap, behind, places)?;
    most(heap, ahead)
}

// One step back on it. What comes behind the place before is the place itself, or for place 0 the number behind the ring's last place; so it is the first
// of both, where place 0 is left out.
fn previous_on(heap: Global, place: Box<Place>, ring: u32) -> Result<Box<Place>, AllocError>
    ensures { IfOk result (λ t. (e : Env) → value t.value e ≡ previous (e.groups ring) (value place.value e)) }
{
    let first = Box::new(heap, Place::First)?;
    let first = only(heap, first)?;
    let here = only(heap, place)?;
    let here = minus(heap, here, first)?;
    let places = Box::new(heap, Group::Named(ring))?;
    let last = most(heap, places)?;
    let end = succ(heap, last)?;
    let end = only(heap, end)?;
    let both = union(heap, here, end)?;
    let behind = least(heap, both)?;
    prev(heap, behind)
}

impl Resolver {
    // So many parts less may be made from here on.
    fn spend_parts(&mut self, parts: u32, span: Span) -> Result<(), Fault>
        ensures { IfErr result (λ f. IsLimit f) }
    {
        for _part in 0..parts {
            self.spend(span)?;
        }
        Ok(())
    }

    // The place n further on in a row, or anywhere.
    fn further_ahead(&mut self, place: Box<Place>, n: u32, span: Span) -> Result<Box<Place>, Fault>
        ensures means { IfOk result (λ t. (e : Env) → value t.value e ≡ value place.value e + n) }
        ensures faults { IfErr result (λ f. IsLimit f) }
    {
        let mut moved = place;
        for i in 0..n {
            self.spend(span)?;
            moved = succ(self.heap, moved)?;
        }
        Ok(moved)
    }

    // The place n further on round a ring.
    fn further_round(
        &mut self,
        place: Box<Place>,
        n: u32,
        ring: u32,
        span: Span,
    ) -> Result<Box<Place>, Fault>
        ensures means { IfOk result (λ t. (e : Env) → value t.value e ≡ steps (next (e.groups ring)) n (value place.value e)) }
        ensures faults { IfErr result (λ f. IsLimit f) }
    {
        let mut moved = place;
        for i in 0..n {
            self.spend_parts(PARTS_FURTHER, span)?;
            moved = next_on(self.heap, moved, ring)?;
        }
        Ok(moved)
    }

    /// The place n further on: on a ring, which is the set with that number, going round.
    ///
    /// # Errors
    /// A limit.
    pub fn further(
        &mut self,
        place: Box<Place>,
        n: u32,
        ring: Option<u32>,
        span: Span,
    ) -> Result<Box<Place>, Fault>
        ensures means { IfOk result (λ t. (e : Env) → value t.value e ≡ forward (places_of ring e) n (value place.value e)) }
        ensures faults { IfErr result (λ f. IsLimit f) }
    {
        match ring {
            None => self.further_ahead(place, n, span),
            Some(ring) => self.further_round(place, n, ring, span),
        }
    }

    // The place n before, but not before place 0.
    fn back_ahead(&mut self, place: Box<Place>, n: u32, span: Span) -> Result<Box<Place>, Fault>
        ensures means { IfOk result (λ t. (e : Env) → value t.value e ≡ value place.value e - n) }
        ensures faults { IfErr result (λ f. IsLimit f) }
    {
        let mut moved = place;
        for i in 0..n {
            self.spend(span)?;
            moved = prev(self.heap, moved)?;
        }
        Ok(moved)
    }

    // The place n before, round a ring.
    fn back_round(
        &mut self,
        place: Box<Place>,
        n: u32,
        ring: u32,
        span: Span,
    ) -> Result<Box<Place>, Fault>
        ensures means { IfOk result (λ t. (e : Env) → value t.value e ≡ steps (previous (e.groups ring)) n (value place.value e)) }
        ensures faults { IfErr result (λ f. IsLimit f) }
    {
        let mut moved = place;
        for i in 0..n {
            self.spend_parts(PARTS_BACK, span)?;
            moved = previous_on(self.heap, moved, ring)?;
        }
        Ok(moved)
    }

    /// The place n before: on a ring, which is the set with that number, going round; elsewhere not before place 0.
    ///
    /// # Errors
    /// A limit.
    pub fn back(
        &mut self,
        place: Box<Place>,
        n: u32,
        ring: Option<u32>,
        span: Span,
    ) -> Result<Box<Place>, Fault>
        ensures means { IfOk result (λ t. (e : Env) → value t.value e ≡ back (places_of ring e) n (value place.value e)) }
        ensures faults { IfErr result (λ f. IsLimit f) }
    {
        match ring {
            None => self.back_ahead(place, n, span),
            Some(ring) => self.back_round(place, n, ring, span),
        }
    }
}
