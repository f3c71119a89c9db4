// Prints the tree of a text in the readable form as a text that is read as the same tree.
#![tactic(auto)]

pub mod print;
pub mod signs;
mod writer;
