// The first word that a table accepts and the first that it does not.
#![tactic(auto)]

pub mod first;
pub mod spell;
pub mod steps;
