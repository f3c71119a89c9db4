// Some of a claim's sets: which they are, their columns, and tables over these.
#![tactic(auto)]

pub mod map;
pub mod mentioned;
pub mod recolumn;
pub mod selection;
pub mod spell;
