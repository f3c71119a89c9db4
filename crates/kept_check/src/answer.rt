// What is answered of a claim that something is kept.

use keeping::moment::Moment;

/// Why a claim is not judged: more classes of words than so many would have to be told apart, or it takes so many bytes, or so many sets, and there may be 1,024 and 12.
#[derive(Clone, Copy, Debug, PartialEq, Eq)]
pub enum Large {
    Classes(u32),
    Bytes(usize),
    Sets(usize),
}

/// What is too large: the claim about rows that show at that moment that the part with this number, from 1 on, is not kept.
#[derive(Clone, Copy, Debug, PartialEq, Eq)]
pub struct TooLarge {
    pub part: usize,
    pub moment: Moment,
    pub why: Large,
}

/// The first row that shows that it is not kept, a column for each module, at which moment it shows that, and the row after it.
#[derive(Debug, Drop)]
pub struct Breach {
    pub moment: Moment,
    pub row: Vec<u32>,
    pub after: Vec<u32>,
}

/// It is kept, however long the row and however many the steps; it is not, as the first row shows; or that was not found out, since of its parts the first such one and the whole are too large.
#[derive(Debug, Drop)]
pub enum Answer {
    Kept,
    NotKept(Breach),
    TooLarge(TooLarge),
}
