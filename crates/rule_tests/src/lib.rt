// Tests of `rule_file`, `rule_source` and `rule_check`. They stand in a crate of their own, since a crate with tests is proved twice, once with them.
#![tactic(auto)]

#[cfg(test)]
mod ends;
#[cfg(test)]
mod file;
#[cfg(test)]
mod first_row;
#[cfg(test)]
mod helpers;
#[cfg(test)]
mod kept;
#[cfg(test)]
mod random_files;
#[cfg(test)]
mod rings;
#[cfg(test)]
mod source;
