// What is answered of a property of rows.

/// Which rows have a property: no row, however long; this one, a column for each module, first, which is the empty row where it has no module; or it was not found out, since more classes of words than so many would have to be told apart.
#[derive(Debug, Drop)]
pub enum Verdict {
    Never,
    First(Vec<u32>),
    TooLarge(u32),
}
