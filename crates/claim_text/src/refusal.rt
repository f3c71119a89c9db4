// Why a claim gets no text.
use claim_formula::refusal::Refusal as NoFormula;
use std::alloc::{AllocError, AllocFailed};
use thiserror::Error;

/// Why a claim gets no text: a set that is free in it has no name; a name, by its index, is none of the readable form; two names are the same; a set's
/// number has more than 32 bits; memory.
#[derive(Debug, Drop, Error)]
pub enum Refusal {
    #[error("set {0} has no name")]
    Unnamed(u32),
    #[error("what is given for the name of set {0} is no name")]
    NotAName(usize),
    #[error("sets {0} and {1} have the same name")]
    SameName(usize, usize),
    #[error("a set has the number {0}, and numbers go up to 4294967295")]
    LargeNumber(usize),
    #[error("there is not enough memory")]
    OutOfMemory,
}

impl From<AllocError> for Refusal {
    fn from(_error: AllocError) -> Refusal {
        Refusal::OutOfMemory
    }
}

impl<T: Drop> From<AllocFailed<T>> for Refusal {
    fn from(_error: AllocFailed<T>) -> Refusal {
        Refusal::OutOfMemory
    }
}

impl From<NoFormula> for Refusal {
    fn from(refusal: NoFormula) -> Refusal {
        match refusal {
            NoFormula::LargeNumber(x) => Refusal::LargeNumber(x),
            NoFormula::OutOfMemory => Refusal::OutOfMemory,
        }
    }
}
