// Ring claims judged: whether they hold of every ring, of none, or of which first, in lent memory.
#![tactic(auto)]

pub mod floor;
pub mod judge_ring;
pub mod made;
pub mod put;
pub mod ring_judged;
