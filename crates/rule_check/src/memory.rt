// With how many classes and how much memory claims are judged.
ghost use Rattle.std.specs.Prelude.{◌≡◌, ◌<◌, ◌≤◌, MatchOption};

use workspace::largest::MOST_WORDS;

/// At most so many classes are told apart at each part of a claim, and all buffers of the judgement take at most so many words of 32 bits: 4 MiB at least.
#[derive(Clone, Copy, Debug, PartialEq, Eq)]
pub struct Memory {
    pub most: u32,
    pub words: u64,
    pub ghost enough: { 1048576 ≤ words },
}

impl Memory {
    /// At most `most` classes, in 4 MiB.
    pub fn program(most: u32) -> Memory
        ensures { (result.most ≡ most) × (result.words ≡ 1048576) }
    {
        Memory {
            most,
            words: MOST_WORDS,
        }
    }

    /// At most `most` classes, in so many words. None where they are fewer than those of 4 MiB.
    pub fn new(most: u32, words: u64) -> Option<Memory>
        ensures { MatchOption result (words < 1048576) (λ m. (m.most ≡ most) × (m.words ≡ words)) }
    {
        if words < MOST_WORDS {
            return None;
        }
        Some(Memory { most, words })
    }
}
