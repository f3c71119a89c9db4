// Why there is no report of a rule file.
use rule_source::fault::Fault;
use rules::known::Unsound;
use std::alloc::{AllocError, AllocFailed};

/// Why there is no report: the file is at fault, a claim has no text, or there is no memory.
#[derive(Debug, Drop)]
pub enum Stop {
    File(Fault),
    Claim(claim_text::refusal::Refusal),
    Memory,
}

impl From<AllocError> for Stop {
    fn from(_error: AllocError) -> Stop {
        Stop::Memory
    }
}

impl<T: Drop> From<AllocFailed<T>> for Stop {
    fn from(_error: AllocFailed<T>) -> Stop {
        Stop::Memory
    }
}

impl From<Fault> for Stop {
    fn from(fault: Fault) -> Stop {
        match fault {
            Fault::Memory => Stop::Memory,
            other => Stop::File(other),
        }
    }
}

impl From<Unsound> for Stop {
    fn from(unsound: Unsound) -> Stop {
        Stop::from(Fault::from(unsound))
    }
}

impl From<claim_text::refusal::Refusal> for Stop {
    fn from(refusal: claim_text::refusal::Refusal) -> Stop {
        match refusal {
            claim_text::refusal::Refusal::OutOfMemory => Stop::Memory,
            other => Stop::Claim(other),
        }
    }
}
