// Rule files as text: the tokens of a file, the tree of what stands in it, and what is wrong with a file. Names are not looked up here.
#![tactic(auto)]

mod cursor;
mod effects;
pub mod fault;
mod modules;
pub mod names;
pub mod parse;
mod patterns;
pub mod section;
mod statements;
pub mod token;
pub mod tree;
