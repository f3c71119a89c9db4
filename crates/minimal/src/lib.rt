// The smallest automaton of a claim.
#![tactic(auto)]

pub mod automaton;
pub mod automaton_of;
pub mod refusal;
pub mod widen;
