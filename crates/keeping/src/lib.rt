// What a step keeps: a claim about rows that holds wherever the start does, and of the row after each row of which it holds; and the claims whose being never says so.
#![tactic(auto)]

pub mod laws;
pub mod moment;
