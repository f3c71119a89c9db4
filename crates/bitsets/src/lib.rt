// Sets of classes as rows of bits, and rows found again by hashing.
#![tactic(auto)]

pub mod bitrows;
pub mod intern;
