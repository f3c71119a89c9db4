// A claim worked out, part by part, in lent memory: from the tables of its parts to a table of its
// own, or that it does not fit.
#![tactic(auto)]

pub mod conjoin;
pub mod hand_on;
pub mod leaf;
pub mod part;
pub mod quantify;
pub mod wanted;
pub mod widen;
pub mod work;
pub mod work_out;
