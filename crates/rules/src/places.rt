// What a tree says of a place, of some place of a row and of each, as a claim.
ghost use Rattle.std.specs.Prelude.{◌≡◌, ◌||◌, ◌==◌, IfOk};
ghost use Rattle.claims.specs.Trees.{said};
ghost use Rattle.rows.specs.Local as theory;
ghost use Rattle.rows.specs.Local.{both, sees};
ghost use Rattle.rules.specs.Local.{local_of};

use crate::local::{Local, fresh, negated};
use claims::tree::{Claim, and, next, not, single, some_set, within};
use rows::rule::Layout;
use std::alloc::{AllocError, Global};

/// A row as a claim speaks of it: how its modules lie, and the set that has its places.
#[derive(Clone, Copy, Debug)]
pub struct Row {
    pub layout: Layout,
    pub places: u8,
}

// A number for a place beside p of which the tree speaks. In a ring the row is spoken of besides.
fn beside(row: Row, p: usize, f: &Local) -> usize
    ensures { result ≡ theory.beside row.layout row.places p (local_of f.now) }
{
    match row.layout {
        Layout::Line => fresh(p, None, f),
        Layout::Ring => fresh(p, Some(row.places), f),
    }
}

fn is_one(z: usize, x: usize, r: usize, y: usize) -> bool
    ensures { result ≡ (z == x || (z == r || z == y)) }
{
    z == x || z == r || z == y
}

// The lowest number that is none of the three.
fn other(x: usize, r: usize, y: usize) -> usize
    ensures { result ≡ theory.fresh x (both (sees r) (sees y)) }
{
    if !is_one(0, x, r, y) {
        0
    } else if !is_one(1, x, r, y) {
        1
    } else if !is_one(2, x, r, y) {
        2
    } else {
        3
    }
}

// Of the places x and y of the row r: y is just behind x, or x is the last one of r and y the first of all.
fn round(alloc: Global, r: usize, x: usize, y: usize) -> Result<Claim, AllocError>
    ensures { IfOk result (λ c. said c ≡ theory.round r (theory.fresh x (both (sees r) (sees y))) x y) }
{
    let z = other(x, r, y);
    let first = not(alloc, some_set(alloc, z, next(z, y))?)?;
    let outside = not(alloc, within(z, r))?;
    let last = some_set(alloc, z, and(alloc, next(x, z), outside)?)?;
    let seam = not(alloc, and(alloc, first, last)?)?;
    let apart = not(alloc, next(x, y))?;
    not(alloc, and(alloc, apart, seam)?)
}

// Of the places x and y, one of which is l, y is the one behind x; in a ring l is of the row.
fn follows(alloc: Global, row: Row, l: usize, x: usize, y: usize) -> Result<Claim, AllocError>
    ensures { IfOk result (λ c. said c ≡ theory.follows row.layout row.places l x y) }
{
    let r = row.places as usize;
    match row.layout {
        Layout::Line => Ok(next(x, y)),
        Layout::Ring => {
            let of_row = and(alloc, single(l), within(l, r))?;
            and(alloc, of_row, round(alloc, r, x, y)?)
        }
    }
}

/// Set p is one place of the row: the claim of what is so at that place.
pub fn at_place(alloc: Global, row: Row, p: usize, f: &Local) -> Result<Claim, AllocError>
    ensures { IfOk result (λ c. said c ≡ theory.local row.layout row.places p (local_of f.now)) }
{
    match f {
        Local::All => Ok(within(p, p)),
        Local::Sees(y) => Ok(within(p, *y as usize)),
        Local::Non(g) => not(alloc, at_place(alloc, row, p, g)?),
        Local::Both(g, h) => and(
            alloc,
            at_place(alloc, row, p, g)?,
            at_place(alloc, row, p, h)?,
        ),
        Local::Before(g) => {
            let l = beside(row, p, g);
            let there = at_place(alloc, row, l, g)?;
            let place = and(alloc, follows(alloc, row, l, l, p)?, there)?;
            some_set(alloc, l, place)
        }
        Local::Behind(g) => {
            let l = beside(row, p, g);
            let there = at_place(alloc, row, l, g)?;
            let place = and(alloc, follows(alloc, row, l, p, l)?, there)?;
            some_set(alloc, l, place)
        }
    }
}

/// The claim that some place of the row is as the tree says.
pub fn somewhere(alloc: Global, row: Row, f: &Local) -> Result<Claim, AllocError>
    ensures { IfOk result (λ c. said c ≡ theory.somewhere row.layout row.places (local_of f.now)) }
{
    let r = row.places as usize;
    let p = fresh(r, None, f);
    let of_row = and(alloc, single(p), within(p, r))?;
    let place = and(alloc, of_row, at_place(alloc, row, p, f)?)?;
    some_set(alloc, p, place)
}

/// The claim that each place of the row is as the tree says.
pub fn each(alloc: Global, row: Row, f: Box<Local>) -> Result<Claim, AllocError>
    ensures { IfOk result (λ c. said c ≡ theory.each row.layout row.places (local_of f.value)) }
{
    let other = negated(alloc, f)?;
    let fails = somewhere(alloc, row, &other)?;
    not(alloc, fails)
}
