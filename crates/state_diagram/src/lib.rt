// What is shown of an automaton: its states and its transitions, for people and for Graphviz.
#![tactic(auto)]

pub mod diagram;
pub mod dot;
pub mod letters;
pub mod plain;
