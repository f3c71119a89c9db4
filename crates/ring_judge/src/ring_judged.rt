// What is said of a ring claim.

/// Always, never, or how long the first rings are of which it holds and of which it does not; or why nothing is said: the bytes
/// are no ring claim, the claim about sets that is made of it takes more than 1,024 bytes or is about more than 12 sets, more
/// than the allowed classes must be told apart, out has no room for the two rings (with their lengths), there are fewer work
/// words than the floor.
#[derive(Clone, Copy)]
pub enum RingJudged {
    Always,
    Never,
    Both(usize, usize),
    NoRingClaim,
    TooLong,
    TooManySets,
    Many,
    OutFull(usize, usize),
    Few,
}
