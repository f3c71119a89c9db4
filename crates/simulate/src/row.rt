// A given row: its step, and whether it is allowed or stuck.
ghost use Rattle.std.specs.Prelude.{◌≡◌, ◌≤◌, ◌++◌, ◌↔◌, IsTrue, OnOk, IfOk, length, not};
ghost use Rattle.rows.specs.Patterns;
ghost use Rattle.rows.specs.Rules;
ghost use Rattle.rows.specs.Rows;
ghost use Rattle.rows.specs.Views;
ghost use Rattle.simulate.specs.Seen.{place_of};

use crate::seen::Seen;
use rows::line::{Line, Pattern};
use rows::rule::Layout;
use std::alloc::{AllocError, Global};

// The first module of a row, behind which `right` stands.
fn front(row: &[u32], right: Option<u32>) -> Option<u32>
    ensures { place_of result ≡ Views.front row.now (place_of right) }
{
    match row {
        [] => right,
        [a, ..] => Some(*a),
    }
}

// The last module of a row, before which `left` stands.
fn last(left: Option<u32>, row: &[u32]) -> Option<u32>
    ensures { place_of result ≡ Views.last (place_of left) row.now }
{
    let [a, rest @ ..] = row else {
        return left;
    };
    last(Some(*a), rest)
}

// What stands before the first module of a row that lies so.
fn before_first(layout: Layout, row: &[u32]) -> Option<u32>
    ensures { place_of result ≡ Rows.before_first layout row.now }
{
    match layout {
        Layout::Line => None,
        Layout::Ring => last(None, row),
    }
}

// What stands behind the last module of a row that lies so.
fn behind_last(layout: Layout, row: &[u32]) -> Option<u32>
    ensures { place_of result ≡ Rows.behind_last layout row.now }
{
    match layout {
        Layout::Line => None,
        Layout::Ring => front(row, None),
    }
}

// What stands beside a row of modules: before the first and behind the last.
#[derive(Clone, Copy)]
struct Beside {
    left: Option<u32>,
    right: Option<u32>,
}

// Puts what the row comes to behind what is there.
fn push_step(
    after: &mut Vec<u32>,
    bits: u8,
    table: &[Line],
    beside: Beside,
    row: &[u32],
) -> Result<(), AllocError>
    requires { bits ≤ 11 }
    ensures { OnOk result (after.new.items ≡ after.old.items ++ Rows.step_between bits table.now (place_of beside.left) row.now (place_of beside.right)) }
{
    let [a, rest @ ..] = row else {
        return Ok(());
    };
    let Beside { left, right } = beside;
    let seen = Seen {
        left,
        own: *a,
        right: front(rest, right),
    };
    after.push(seen.after(table, 0, bits))?;
    let beside = Beside {
        left: Some(*a),
        right,
    };
    push_step(after, bits, table, beside, rest)
}

// What stands beside a row that lies so.
fn around(layout: Layout, row: &[u32]) -> Beside
    ensures left { place_of result.left ≡ Rows.before_first layout row.now }
    ensures right { place_of result.right ≡ Rows.behind_last layout row.now }
{
    Beside {
        left: before_first(layout, row),
        right: behind_last(layout, row),
    }
}

// What all modules come to, from the first on.
fn stepped(
    alloc: Global,
    layout: Layout,
    bits: u8,
    table: &[Line],
    row: &[u32],
) -> Result<Vec<u32>, AllocError>
    requires { bits ≤ 11 }
    ensures { IfOk result (λ after. after.items ≡ Rows.step layout bits table.now row.now) }
{
    let mut after = Vec::new(alloc);
    push_step(&mut after, bits, table, around(layout, row), row)?;
    Ok(after)
}

/// The row after one step of all modules at once, which has as many modules and lies as the row does. Fails for memory alone.
pub fn step(
    alloc: Global,
    layout: Layout,
    bits: u8,
    table: &[Line],
    row: &[u32],
) -> Result<Vec<u32>, AllocError>
    requires { bits ≤ 11 }
    ensures after { IfOk result (λ after. after.items ≡ Rows.step layout bits table.now row.now) }
    ensures modules { IfOk result (λ after. length after.items ≡ length row.now) }
{
    let after = stepped(alloc, layout, bits, table, row)?;
    Ok(after)
}

fn all_fit(patterns: &[Pattern], beside: Beside, row: &[u32]) -> bool
    ensures { IsTrue result ↔ Rows.EachBetween (Patterns.any_fits patterns.now) (place_of beside.left) row.now (place_of beside.right) }
{
    let [a, rest @ ..] = row else {
        return true;
    };
    let Beside { left, right } = beside;
    let seen = Seen {
        left,
        own: *a,
        right: front(rest, right),
    };
    let beside = Beside {
        left: Some(*a),
        right,
    };
    seen.fits_any(patterns) && all_fit(patterns, beside, rest)
}

/// Whether each module of a row that lies so is as one of the patterns says.
pub fn is_allowed(layout: Layout, patterns: &[Pattern], row: &[u32]) -> bool
    ensures { IsTrue result ↔ Rows.Allowed layout patterns.now row.now }
{
    all_fit(patterns, around(layout, row), row)
}

fn all_wait(table: &[Line], beside: Beside, row: &[u32]) -> bool
    ensures { IsTrue result ↔ Rows.EachBetween (λ s. not (Rules.moves table.now s)) (place_of beside.left) row.now (place_of beside.right) }
{
    let [a, rest @ ..] = row else {
        return true;
    };
    let Beside { left, right } = beside;
    let seen = Seen {
        left,
        own: *a,
        right: front(rest, right),
    };
    let beside = Beside {
        left: Some(*a),
        right,
    };
    !seen.moves(table) && all_wait(table, beside, rest)
}

/// Whether each module of a row that lies so waits.
pub fn is_stuck(layout: Layout, table: &[Line], row: &[u32]) -> bool
    ensures { IsTrue result ↔ Rows.Stuck layout table.now row.now }
{
    all_wait(table, around(layout, row), row)
}
