// What programs print, as types with `Display`: a word as rows of marks under a ruler, a word as numbers, bytes in hex digits, a message
// beside its line. Nothing here allocates.
#![tactic(auto)]

pub mod beside;
mod blanks;
pub mod columns;
pub mod ends;
pub mod hex;
pub mod marks;
mod row;
mod ruler;
#[cfg(test)]
mod tests;
