// What is so at a place, as a tree, and the lowest number that such a tree does not name.
ghost use Rattle.std.specs.Prelude.{◌≡◌, ◌≤◌, IfOk, false};
ghost use Rattle.rows.specs.Local.{all, sees, non, both, before, behind, neg, names as is_named, fresh as fresh_number};
ghost use Rattle.rows.specs.RuleLocal.{either, implies, also};
ghost use Rattle.rules.specs.Local.{local_of, with_kept};

use std::alloc::{AllocError, Global};

/// What is so at a place: everything; it lies in a set; the opposite; both; there is a place before it, and there; at the place behind it. The sets that a tree names have numbers of two bytes.
#[derive(Debug, Drop)]
pub enum Local {
    All,
    Sees(u16),
    Non(Box<Local>),
    Both(Box<Local>, Box<Local>),
    Before(Box<Local>),
    Behind(Box<Local>),
}

/// Everything is so.
pub fn all(alloc: Global) -> Result<Box<Local>, AllocError>
    ensures { IfOk result (λ r. local_of r.value ≡ all) }
{
    Ok(Box::new(alloc, Local::All)?)
}

/// The place lies in set y.
pub fn sees(alloc: Global, y: u16) -> Result<Box<Local>, AllocError>
    ensures { IfOk result (λ r. local_of r.value ≡ sees y) }
{
    Ok(Box::new(alloc, Local::Sees(y))?)
}

/// The opposite.
pub fn non(alloc: Global, f: Box<Local>) -> Result<Box<Local>, AllocError>
    ensures { IfOk result (λ r. local_of r.value ≡ non (local_of f.value)) }
{
    Ok(Box::new(alloc, Local::Non(f))?)
}

/// Both are so at the place.
pub fn both(alloc: Global, f: Box<Local>, g: Box<Local>) -> Result<Box<Local>, AllocError>
    ensures { IfOk result (λ r. local_of r.value ≡ both (local_of f.value) (local_of g.value)) }
{
    Ok(Box::new(alloc, Local::Both(f, g))?)
}

/// There is a place just before this one, and there it is so.
pub fn before(alloc: Global, f: Box<Local>) -> Result<Box<Local>, AllocError>
    ensures { IfOk result (λ r. local_of r.value ≡ before (local_of f.value)) }
{
    Ok(Box::new(alloc, Local::Before(f))?)
}

/// At the place just behind this one it is so.
pub fn behind(alloc: Global, f: Box<Local>) -> Result<Box<Local>, AllocError>
    ensures { IfOk result (λ r. local_of r.value ≡ behind (local_of f.value)) }
{
    Ok(Box::new(alloc, Local::Behind(f))?)
}

/// The opposite, without a double not.
pub fn negated(alloc: Global, f: Box<Local>) -> Result<Box<Local>, AllocError>
    ensures { IfOk result (λ r. local_of r.value ≡ neg (local_of f.value)) }
{
    match Box::into_inner(f) {
        Local::Non(g) => Ok(g),
        g => {
            let g = Box::new(alloc, g)?;
            non(alloc, g)
        }
    }
}

/// One of the two is so.
pub fn either(alloc: Global, f: Box<Local>, g: Box<Local>) -> Result<Box<Local>, AllocError>
    ensures { IfOk result (λ r. local_of r.value ≡ either (local_of f.value) (local_of g.value)) }
{
    let neither = both(alloc, negated(alloc, f)?, negated(alloc, g)?)?;
    non(alloc, neither)
}

/// Where the first is so, the second is.
pub fn implies(alloc: Global, f: Box<Local>, g: Box<Local>) -> Result<Box<Local>, AllocError>
    ensures { IfOk result (λ r. local_of r.value ≡ implies (local_of f.value) (local_of g.value)) }
{
    let fails = both(alloc, f, negated(alloc, g)?)?;
    non(alloc, fails)
}

/// Both, where neither says everything.
pub fn also(alloc: Global, f: Box<Local>, g: Box<Local>) -> Result<Box<Local>, AllocError>
    ensures { IfOk result (λ r. local_of r.value ≡ also (local_of f.value) (local_of g.value)) }
{
    if let Local::All = &*f {
        return Ok(g);
    }
    if let Local::All = &*g {
        return Ok(f);
    }
    both(alloc, f, g)
}

/// Whether the tree names set y. A number of more than two bytes it does not name.
pub fn names(f: &Local, y: usize) -> bool
    ensures named { result ≡ is_named (local_of f.now) y }
    ensures beyond { 65536 ≤ y → result ≡ false }
{
    match f {
        Local::All => false,
        Local::Sees(x) => y == *x as usize,
        Local::Non(g) | Local::Before(g) | Local::Behind(g) => names(g, y),
        Local::Both(g, h) => names(g, y) || names(h, y),
    }
}

// Whether the tree names set y, or y is the number that is kept besides.
fn is_taken(kept: Option<u8>, f: &Local, y: usize) -> bool
    ensures named { result ≡ is_named (with_kept kept (local_of f.now)) y }
    ensures beyond { 65536 ≤ y → result ≡ false }
{
    match kept {
        None => names(f, y),
        Some(r) => y == r as usize || names(f, y),
    }
}

// One of these is neither p nor taken.
const MOST_NUMBERS: usize = 65538;

/// The lowest number that is not p, is not kept and that the tree does not name. There always is one.
pub fn fresh(p: usize, kept: Option<u8>, f: &Local) -> usize
    ensures { result ≡ fresh_number p (with_kept kept (local_of f.now)) }
{
    for y in 0..MOST_NUMBERS {
        if y != p && !is_taken(kept, f, y) {
            return y;
        }
    }
    0
}
