// From a rule file to a sound rule, the claims of the file and its given rows: names are looked up, and what makes no sense is refused with its place.
#![tactic(auto)]

pub mod bits;
pub mod claimed;
pub mod clash;
pub mod fault;
pub mod formula;
pub mod given;
pub mod helpers;
pub mod kept;
pub mod lines;
pub mod pattern;
pub mod source;
