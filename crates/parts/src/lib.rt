// The parts of a formula, as they stand in a text and as formulas over numbers.
#![tactic(auto)]

pub mod parts;
