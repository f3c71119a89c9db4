// Space-time diagrams: a row of modules and the rows after it, one below the other, as an SVG text.
#![tactic(auto)]

mod around;
pub mod colours;
pub mod drawn;
mod elements;
pub mod history;
pub mod layout;
pub mod svg;
pub mod text;
