// What is answered of a claim that may be kept with the help of some of a list.

use kept_check::answer::TooLarge;

/// A choice, by its numbers in the list, and what is too large of the claim with these.
#[derive(Debug, Drop)]
pub struct LargeChoice {
    pub choice: Vec<usize>,
    pub large: TooLarge,
}

/// It is kept with these of the list, by their numbers in it, which begin at 0 and rise: the fewest, and of as many the first; it is kept with no
/// choice; or that was not found out, since the first choice of which it is not known is too large.
#[derive(Debug, Drop)]
pub enum Stronger {
    With(Vec<usize>),
    NoneAmong,
    TooLarge(LargeChoice),
}
