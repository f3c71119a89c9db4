// A rule of modules as Rust types, what is asked of its rows, and the claims that it makes.
#![tactic(auto)]

pub mod changed;
pub mod claim;
pub mod clauses;
pub mod formula;
pub mod known;
pub mod limits;
pub mod local;
pub mod numbers;
pub mod places;
pub mod property;
pub mod question;
pub mod row;
pub mod rule;
pub mod step;
pub mod table;
