// Why there is no automaton of a claim.
ghost use Rattle.std.specs.Prelude.{◌≡◌};
ghost use Rattle.minimal.specs.declared.refusal.Refusal.TheVariants.{OutOfMemory};

use std::alloc::{AllocError, AllocFailed};
use thiserror::Error;

/// Why there is no automaton: the bytes are no claim; more classes than so many would have to be
/// told apart; there was no memory.
#[derive(Debug, Drop, Error)]
pub enum Refusal {
    #[error("no claim")]
    NoClaim,
    #[error("too large: more than {0} classes would have to be told apart")]
    TooLarge(u32),
    #[error("out of memory")]
    OutOfMemory,
}

impl From<AllocError> for Refusal {
    ghost from_gives = { λ _ e. e ≡ OutOfMemory };

    fn from(_e: AllocError) -> Refusal {
        Refusal::OutOfMemory
    }
}

impl<T: Drop> From<AllocFailed<T>> for Refusal {
    ghost from_gives = { λ _ e. e ≡ OutOfMemory };

    fn from(_e: AllocFailed<T>) -> Refusal {
        Refusal::OutOfMemory
    }
}
