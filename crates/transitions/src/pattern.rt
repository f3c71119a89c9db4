// Patterns of columns.

/// What a pattern says of one set: that it does not have the place, that it has it, or nothing.
#[derive(Clone, Copy, Debug, Eq, PartialEq)]
pub enum Letter {
    Zero,
    One,
    Any,
}

/// The state to which the columns lead that fit a pattern, which has a letter for each set.
#[derive(Debug, Drop)]
pub struct Transition {
    pub pattern: Vec<Letter>,
    pub to: u32,
}
