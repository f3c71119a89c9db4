// The search that writes a table: what is reached from a start on, numbered as it is found.
#![tactic(auto)]

pub mod explore;
