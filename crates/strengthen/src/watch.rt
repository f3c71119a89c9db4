// Who is told how far a search is.

/// What a search does: it judges a claim for rows of every length; it has so many choices before it, or more than can be counted; or it is done with one of them.
#[derive(Clone, Copy, Debug, PartialEq, Eq)]
pub enum Event {
    Judged,
    Choices(Option<u64>),
    Passed,
}

/// Is told what a search does, so that it can be shown or counted.
pub trait Watch {
    fn note(&mut self, event: Event);
}

/// Nobody is told.
#[derive(Clone, Copy, Debug)]
pub struct Unwatched;

impl Watch for Unwatched {
    fn note(&mut self, _event: Event) {}
}
