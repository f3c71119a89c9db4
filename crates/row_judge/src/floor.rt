// How many work words the call on a row claim asks for.
ghost use Rattle.row_judge.specs.Made.{RowFloor};

use crate::made::{Unmade, claim_without};
use workspace::floor::floor;

// What is asked for where nothing is judged.
const NO_WORDS: u128 = 0;

/// The work words that the call asks for. Of bytes of which no claim about sets is made it asks for none: it says so before it
/// looks at the memory, so no memory is too little (`few` in its contract). For the largest `most` this passes 2^64.
pub fn row_floor(claim: &[u8], most: u32) -> u128
    ensures { RowFloor claim.now most result }
{
    match claim_without(claim) {
        Ok((_, made)) => floor(made.as_slice(), most) + 3 * u128::from(most),
        Err(Unmade::NoRowClaim | Unmade::TooManySets | Unmade::TooLong) => NO_WORDS,
    }
}
