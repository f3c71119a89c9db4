// The calls for other languages, on claims, row claims and ring claims, how many work words they ask for, and the calls on what a step of a
// rule file keeps and with which helpers. It is a crate of its own so that the static library is proved and built in seconds once the crates below it are.
#![tactic(auto)]

pub mod floor;
pub mod kept_outcome;
pub mod kept_verdict;
pub mod ring_floor;
pub mod ring_verdict;
pub mod row_floor;
pub mod row_verdict;
pub mod stronger_outcome;
pub mod stronger_verdict;
pub mod verdict;
