// How many work words the call on a ring claim asks for.
ghost use Rattle.ring_judge.specs.Made.{RingFloor};

use crate::made::{Unmade, as_row};
use row_judge::floor::row_floor;

// What is asked for where nothing is judged.
const NO_WORDS: u128 = 0;

/// The work words that the call asks for: those of the call on the row claim that is made. Of bytes of which no claim about sets is
/// made it asks for none. For the largest `most` this passes 2^64.
pub fn ring_floor(claim: &[u8], most: u32) -> u128
    ensures { RingFloor claim.now most result }
{
    match as_row(claim) {
        Ok(row) => row_floor(row.as_slice(), most),
        Err(Unmade::NoRingClaim | Unmade::TooManySets | Unmade::TooLong) => NO_WORDS,
    }
}
