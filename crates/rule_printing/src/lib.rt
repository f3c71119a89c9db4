// How the tree of a rule file is written as a text.
#![tactic(auto)]

pub mod print;
