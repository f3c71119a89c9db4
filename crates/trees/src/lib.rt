// The tree of a claim's text, where its parts stand, and a message beside the line that it is about.
#![tactic(auto)]

pub mod beside;
pub mod position;
pub mod tree;
