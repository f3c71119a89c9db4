// How a report is wanted.

/// What a report shows beside the answers, and how many classes may be told apart.
#[derive(Clone, Copy, Debug, PartialEq, Eq)]
pub struct Options {
    /// At most so many classes are told apart at a part of a claim; without it as many as 4 MiB have room for.
    pub most: Option<u32>,
    /// So many rows are shown after each first row and each given row.
    pub steps: u32,
    /// Each claim is shown as a text of the readable form.
    pub show: bool,
    /// Each claim is shown as bytes, as the line tool reads them.
    pub bytes: bool,
    /// Each first row and each given row is drawn with the rows after it.
    pub pictures: bool,
    /// Of each choice of helpers that comes before the answer is shown why it does not keep the claim.
    pub why: bool,
}
