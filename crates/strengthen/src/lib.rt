// The fewest claims of a list with which a claim is kept by the steps of a rule, found.
#![tactic(auto)]

pub mod answer;
pub mod before;
pub mod choice;
pub mod copy;
pub mod count;
pub mod follow;
pub mod judge;
pub mod known;
pub mod listed;
pub mod marks;
pub mod problem;
pub mod refutation;
pub mod search;
pub mod strengthen;
pub mod table;
pub mod watch;
