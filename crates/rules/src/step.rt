// That listed bits are those of the row after a step, and another claim.
ghost use Rattle.std.specs.Prelude.{◌≡◌, IfOk};
ghost use Rattle.claims.specs.Trees.{said};
ghost use Rattle.rows.specs.Faults.{groups, after_step};
ghost use Rattle.rules.specs.Numbers.{number_of};

use crate::numbers::Numbers;
use crate::places::{Row, each};
use crate::table::of_step;
use claims::tree::{Claim, and};
use rows::line::Line;
use rows::rule::Layout;
use std::alloc::{AllocError, Global};

// The table is asked for at most three bits at a time, since more would need more sets to tell apart.
const GROUP: usize = 3;

/// The listed bits, with the numbers that y gives them, are those of the row after one step by the table; and the claim.
pub fn after_step(
    alloc: Global,
    layout: Layout,
    y: &Numbers,
    js: &[u8],
    table: &[Line],
    claim: Claim,
) -> Result<Claim, AllocError>
    ensures { IfOk result (λ c. said c ≡ after_step layout y.now.bits (number_of y.now) table.now (groups js.now) (said claim)) }
{
    if js.is_empty() {
        return Ok(claim);
    }
    let n = js.len().min(GROUP);
    let x = Numbers {
        bits: y.bits,
        after: &[],
    };
    let others = after_step(alloc, layout, y, &js[n..], table, claim)?;
    let row = Row {
        layout,
        places: y.bits,
    };
    let now = each(alloc, row, of_step(alloc, &x, y, &js[..n], table)?)?;
    and(alloc, now, others)
}
