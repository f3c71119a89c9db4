// The choices that come before one, in the order of words.
ghost use Rattle.std.specs.Prelude.{◌≤◌, ◌↔◌, map, IfOk, IsTrue, OnOk};
ghost use Rattle.std.specs.Option.{option_copied};
ghost use Rattle.words.specs.Order.{Less};
ghost use Rattle.strengthen.specs.Before.{Before, AreBefore, Adds, words_of};

use crate::search::{Front, with_number};
use std::alloc::{AllocError, Global};

/// Whether u comes before v: shorter first, and of one length the lower at the first number that differs.
pub fn is_less(u: &[usize], v: &[usize]) -> bool
    ensures { IsTrue result ↔ Less u.now v.now }
{
    if u.len() != v.len() {
        return u.len() < v.len();
    }
    for i in 0..u.len() {
        if u[i] != v[i] {
            return u[i] < v[i];
        }
    }
    false
}

// Whether it comes before the end, if there is one.
fn is_before(choice: &[usize], end: Option<&[usize]>) -> bool
    ensures { IsTrue result ↔ Before (option_copied end.entry) choice.now }
{
    match end {
        None => true,
        Some(end) => is_less(choice, end),
    }
}

// Pushes those that begin so and come before the end. Fails for memory.
// Invariant: those whose next number is below c are pushed.
fn push_from(
    alloc: Global,
    n: usize,
    end: Option<&[usize]>,
    front: Front<'_>,
    found: &mut Vec<Vec<usize>>,
) -> Result<(), AllocError>
    requires { front.from ≤ n }
    ensures { OnOk result (Adds (option_copied end.entry) (words_of n front.entry) (map (λ c. c.items) found.old.items) (map (λ c. c.items) found.new.items)) }
{
    if front.count == 0 {
        if is_before(front.choice, end) {
            let choice = Vec::from_slice(alloc, front.choice)?;
            found.push(choice)?;
        }
        return Ok(());
    }
    for c in front.from..n {
        let choice = with_number(alloc, front.choice, c)?;
        let next = Front {
            choice: &choice,
            from: c + 1,
            count: front.count - 1,
        };
        push_from(alloc, n, end, next, found)?;
    }
    Ok(())
}

/// The choices of n things, but the empty one, that come before the end; all of them where there is none. Fails for memory.
/// Invariant: those of fewer than `count` numbers are found.
pub fn choices_before(
    alloc: Global,
    n: usize,
    end: Option<&[usize]>,
) -> Result<Vec<Vec<usize>>, AllocError>
    ensures { IfOk result (λ cs. AreBefore n (option_copied end.entry) (map (λ c. c.items) cs.items)) }
{
    let most = match end {
        None => 8,
        Some(end) => end.len().min(8),
    };
    let mut found = Vec::new(alloc);
    for count in 1..most + 1 {
        let front = Front {
            choice: &[],
            from: 0,
            count,
        };
        push_from(alloc, n, end, front, &mut found)?;
    }
    Ok(found)
}
