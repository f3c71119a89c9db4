// Tests of `formula_claims`. They stand in a crate of their own, since a crate with tests is proved twice, once with them.
#![tactic(auto)]

#[cfg(test)]
mod claimed;
#[cfg(test)]
mod counted;
