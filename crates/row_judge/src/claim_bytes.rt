// The bytes of a claim that is being written, at most as many as a claim may have.
ghost use Rattle.std.specs.Prelude.{◌≡◌, ℕ, ◌+◌, ◌<◌, ◌≤◌, List, [], ◌++◌, length, take, IfSome, IfNone, MatchOption};

use std::marker::Model;

const MOST_BYTES: usize = 1024;

/// Bytes one behind the other, at most 1,024.
#[derive(Drop)]
pub struct ClaimBytes {
    bytes: [u8; MOST_BYTES],
    len: usize,
}

impl Model for ClaimBytes {
    ghost Value = { List ℕ };

    ghost view = { λ c. take c.len c.bytes };

    ghost invariant = { λ c. c.len ≤ 1024 };
}

impl ClaimBytes {
    /// None yet.
    pub fn new() -> ClaimBytes
        ensures { result ≡ [] }
    {
        ClaimBytes {
            bytes: [0; MOST_BYTES],
            len: 0,
        }
    }

    /// Puts bytes behind those that are there. `None` where there is no room for all of them.
    pub fn push(&mut self, bytes: &[u8]) -> Option<()>
        ensures put { MatchOption result (1024 < length self.old + length bytes.now) (λ _. self.new ≡ self.old ++ bytes.now) }
        ensures few { IfSome result (λ _. length self.new ≤ 1024) }
        ensures stays { IfNone result (self.new ≡ self.old) }
    {
        if MOST_BYTES - self.len < bytes.len() {
            return None;
        }
        let end = self.len + bytes.len();
        self.bytes[self.len..end].copy_from_slice(bytes);
        self.len = end;
        Some(())
    }

    /// All of them.
    pub fn as_slice(&self) -> &[u8]
        ensures { result.now ≡ self.now }
    {
        &self.bytes[..self.len]
    }
}
