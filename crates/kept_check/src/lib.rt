// Whether a formula is kept by the steps of a rule, for rows of every length: judged by its parts.
#![tactic(auto)]

pub mod answer;
pub mod found;
pub mod judge_kept;
pub mod part;
pub mod parts;
