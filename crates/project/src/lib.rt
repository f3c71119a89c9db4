// The table of a claim under some, from that of its part: set x is left out of the columns, and the
// sets of classes that are reached are the new classes.
#![tactic(auto)]

pub mod memory;
pub mod projection;
pub mod subsets;
mod successors;
