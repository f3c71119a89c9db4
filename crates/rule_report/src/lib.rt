// What is told of a rule file: each claim of its rule judged for rows of every length, its first rows and given rows as rows of marks and as pictures.
#![tactic(auto)]

pub mod answer;
pub mod choices;
pub mod helped;
pub mod kept;
pub mod narrow;
pub mod options;
pub mod piece;
pub mod progress;
pub mod report;
pub mod shown_claim;
pub mod shown_keeping;
pub mod shown_rows;
pub mod stop;
pub mod subject;
pub mod told;
pub mod why;
