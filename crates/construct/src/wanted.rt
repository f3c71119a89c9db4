// What is wanted of a claim's table.

// The exact table, in which no two classes are alike, or any table that says the claim: of such a
// table words can be asked, and it costs less, since its classes need not be joined.
#[derive(Clone, Copy)]
pub enum Wanted {
    Exact,
    Any,
}
