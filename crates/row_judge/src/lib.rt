// Row claims judged: whether they hold of every row, of none, or of which first, in lent memory.
#![tactic(auto)]

pub mod claim_bytes;
pub mod finding;
pub mod floor;
pub mod judge_row;
pub mod made;
pub mod modules;
pub mod put;
pub mod row_judged;
