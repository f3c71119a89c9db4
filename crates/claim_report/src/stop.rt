// Why a text gets no answer.
use std::alloc::{AllocError, AllocFailed, Global};
use trees::beside::beside;
use trees::position::Span;

/// Why a text gets no answer: it cannot be read, or what is read gets none.
#[derive(Debug, Drop)]
pub enum Stop {
    Text(syntax::fault::Fault),
    Tree(solve::stop::Stop),
    /// its automaton depends on a set that has no name
    Unnamed,
    Memory,
}

impl From<AllocError> for Stop {
    fn from(_error: AllocError) -> Stop {
        Stop::Memory
    }
}

impl<T: Drop> From<AllocFailed<T>> for Stop {
    fn from(_error: AllocFailed<T>) -> Stop {
        Stop::Memory
    }
}

impl From<syntax::fault::Fault> for Stop {
    fn from(fault: syntax::fault::Fault) -> Stop {
        Stop::Text(fault)
    }
}

impl From<solve::stop::Stop> for Stop {
    fn from(stop: solve::stop::Stop) -> Stop {
        Stop::Tree(stop)
    }
}

// A message beside its line, or alone where nothing in the text is at fault.
fn placed(
    alloc: Global,
    file: &str,
    text: &[u8],
    span: Option<Span>,
    message: &str,
) -> Result<String, AllocError> {
    match span {
        Some(span) => {
            let beside = beside(file, text, span, message);
            format!(in alloc; "{beside}")
        }
        None => format!(in alloc; "{file}: {message}\n"),
    }
}

impl Stop {
    /// What is shown in place of an answer. Fails for memory.
    pub fn message(&self, alloc: Global, file: &str, text: &[u8]) -> Result<String, AllocError> {
        match self {
            Stop::Text(fault) => {
                let message = fault.message(alloc, text)?;
                placed(alloc, file, text, fault.span(), message.as_str())
            }
            Stop::Tree(solve::stop::Stop::Sense(fault)) => {
                let message = fault.message(alloc, text)?;
                placed(alloc, file, text, fault.span(), message.as_str())
            }
            Stop::Tree(solve::stop::Stop::Claim(refusal)) => format!(in alloc;
                "{file}: {refusal}\n"
            ),
            Stop::Tree(solve::stop::Stop::Most(most)) => format!(in alloc;
                "{file}: expected --most of at most {most}, which 4 MiB have room for, found more\n"
            ),
            Stop::Unnamed => format!(in alloc;
                "{file}: the automaton depends on a set that has no name\n"
            ),
            Stop::Tree(solve::stop::Stop::Memory) | Stop::Memory => {
                format!(in alloc; "{file}: there is not enough memory\n")
            }
        }
    }
}
