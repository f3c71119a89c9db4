// Ring claims: as trees and as bytes, the sign that bytes begin with, the ring claim that they begin
// with, whether they are one and about how many sets, the row claim as which one is read; and what is
// proved of all of them, which stands on the contracts of the functions in `laws`.
#![tactic(auto)]

pub mod atom;
pub mod claim;
pub mod encode;
pub mod laws;
pub mod prefix;
pub mod reading;
pub mod row;
pub mod sign;
#[cfg(test)]
mod tests;
pub mod tree;
