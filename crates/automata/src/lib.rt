// The theory of tables over columns. What it says of every claim stands on the contracts of the
// functions in `laws`, so that no check passes without its proof.
#![tactic(auto)]

pub mod laws;
