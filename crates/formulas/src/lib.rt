// Formulas about places and finite sets of places, as trees, and what they mean.
#![tactic(auto)]

pub mod formula;
pub mod free;
pub mod name;
