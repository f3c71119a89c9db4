// A formula that means a claim, for people to read: places where the claim has sets of one place, and few opposites.
#![tactic(auto)]

pub mod connect;
pub mod forced;
pub mod formula;
pub mod points;
pub mod refusal;
pub mod scope;
