// What stands on a line of the line tool: two or three fields, numbers and bytes; and what is said of a line that is not of that form.
#![tactic(auto)]

pub mod fault;
pub mod line;
