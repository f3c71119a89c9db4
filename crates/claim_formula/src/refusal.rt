// Why a claim gets no formula.
use std::alloc::{AllocError, AllocFailed};
use thiserror::Error;

/// Why a claim gets no formula: a set's number has more than 32 bits; memory.
#[derive(Debug, Drop, Error)]
pub enum Refusal {
    #[error("a set has the number {0}, and numbers go up to 4294967295")]
    LargeNumber(usize),
    #[error("there is not enough memory")]
    OutOfMemory,
}

impl From<AllocError> for Refusal {
    fn from(_error: AllocError) -> Refusal {
        Refusal::OutOfMemory
    }
}

impl<T: Drop> From<AllocFailed<T>> for Refusal {
    fn from(_error: AllocFailed<T>) -> Refusal {
        Refusal::OutOfMemory
    }
}
