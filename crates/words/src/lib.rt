// Words of columns: one bit of a column, and the order of words.
#![tactic(auto)]

pub mod bits;
pub mod order;
