// What is claimed to be kept by the steps of a rule, and the claims that tell of the rows that show that it is not.
#![tactic(auto)]

pub mod breach;
pub mod kept;
