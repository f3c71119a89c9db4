// What a rule file claims to be kept, judged by the claim's name, and with which of the file's list of helpers it is kept.
#![tactic(auto)]

pub mod helped;
pub mod in_file;
pub mod judge_named;
pub mod read;
pub mod strengthen_named;
