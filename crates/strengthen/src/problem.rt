// What a search is about.

use crate::listed::Listed;
use rule_check::memory::Memory;

/// The claim and the list, and the memory in which claims are judged.
#[derive(Clone, Copy)]
pub struct Problem<'k, 'r> {
    pub given: Listed<'k, 'r>,
    pub memory: Memory,
}
