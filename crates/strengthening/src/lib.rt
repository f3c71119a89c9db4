// A claim that a step does not keep, but keeps together with some claims of a list: the fewest of them. What is proved of it stands on the contracts of functions.
#![tactic(auto)]

pub mod laws;
