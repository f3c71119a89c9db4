// The tokens of a text in the readable form: words, numbers and signs, and where they stand.
#![tactic(auto)]

pub mod foreign;
mod gap;
pub mod kind;
mod sign;
pub mod token;
mod word;
