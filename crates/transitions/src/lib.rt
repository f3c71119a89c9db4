// The columns that lead from a state, merged into patterns.
#![tactic(auto)]

pub mod pattern;
pub mod transitions;
