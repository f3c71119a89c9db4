// Tables of the claims without parts, whatever their kind.
#![tactic(auto)]

pub mod atom_table;
pub mod kind;
mod memory;
mod multiple;
mod relation;
mod states;
