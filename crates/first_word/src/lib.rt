// The first word of which a claim holds, judged in memory of its own.
#![tactic(auto)]

pub mod first_word;
