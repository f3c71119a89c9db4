// A rule: which rows are allowed, and the table of what each module does.
ghost use Rattle.std.specs.Prelude.{◌≤◌, IsTrue};
ghost use Rattle.rows.specs.RowClaims.{below};
ghost use Rattle.rows.specs.Faults.{patterns_ok, lines_ok, limits_ok};

use formulas::formula::Formula;
use rows::line::{Line, Pattern};
use rows::rule::Layout;

/// A rule of modules of `bits` bits: one bit, and at most as many as leave one of the 12 sets of a claim for the row itself. The modules of its rows lie in a line or in a ring (`layout`).
/// A row is allowed if each module is as one of the patterns in `allowed`, and each of the `limits` holds of the row; of the `table` the first line that fits counts.
/// Patterns and table name bits that a module has. A limit names sets, each a number: below `bits` the places whose module has that bit, and `bits` itself the row's places.
#[derive(Debug, Drop)]
pub struct Rule {
    pub bits: u8,
    pub layout: Layout,
    pub allowed: Vec<Pattern>,
    pub limits: Vec<Formula>,
    pub table: Vec<Line>,
    pub ghost one: { 1 ≤ bits },
    pub ghost few: { bits ≤ 11 },
    pub ghost patterns: { IsTrue (patterns_ok (below bits) allowed.items) },
    pub ghost names: { IsTrue (limits_ok bits limits.items) },
    pub ghost lines: { IsTrue (lines_ok (below bits) table.items) },
}
