// Why a text that is read gets no answer.
use formula_claims::claimed::Refusal;
use resolve::fault::Fault;
use std::alloc::{AllocError, AllocFailed};

/// Why a text that is read gets no answer.
#[derive(Debug, Drop)]
pub enum Stop {
    // it says nothing
    Sense(Fault),
    // it says too much for a claim
    Claim(Refusal),
    // more classes are wanted than there is memory for: the most that fit
    Most(u32),
    Memory,
}

impl From<AllocError> for Stop {
    fn from(_error: AllocError) -> Stop {
        Stop::Memory
    }
}

impl<T: Drop> From<AllocFailed<T>> for Stop {
    fn from(_error: AllocFailed<T>) -> Stop {
        Stop::Memory
    }
}

impl From<Fault> for Stop {
    fn from(fault: Fault) -> Stop {
        Stop::Sense(fault)
    }
}

impl From<Refusal> for Stop {
    fn from(refusal: Refusal) -> Stop {
        Stop::Claim(refusal)
    }
}
