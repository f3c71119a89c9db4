// The readable form of a claim, as text: how its tree is read from its tokens.
#![tactic(auto)]

mod expression;
pub mod fault;
mod items;
pub mod operators;
pub mod parse;
mod part;
mod row;
mod source;
mod tally;
