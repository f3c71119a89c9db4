// Claims without parts: each kind, what is left of one once columns are read, and their bytes.
#![tactic(auto)]

pub mod atom;
pub mod multiple;
pub mod relation;
pub mod residual;
