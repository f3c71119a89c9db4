// A claim as a text of the readable form, with names in place of numbers: its formula as an expression, and how it is printed.
#![tactic(auto)]

mod expr;
mod known;
mod layout;
pub mod refusal;
pub mod text;
