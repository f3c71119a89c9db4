// From a claim's text to the words of its answer, or to its automaton.
#![tactic(auto)]

pub mod automaton;
pub mod declared;
pub mod report;
pub mod stop;
pub mod told;
