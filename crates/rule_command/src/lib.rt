// The command line of `conveyor`.
#![tactic(auto)]

pub mod command;
