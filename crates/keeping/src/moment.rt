// Where a row shows that a claim is not kept.

/// At the start: the start holds of the row, and the claim does not. In a step: the claim holds of the row, and not of the row after it.
#[derive(Clone, Copy, Debug, PartialEq, Eq)]
pub enum Moment {
    Start,
    Step,
}
