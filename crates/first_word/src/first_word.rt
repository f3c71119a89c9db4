// A claim's first word, as a value of its own.
ghost use Rattle.std.specs.Prelude.{◌-◌, ◌^◌, IfOk};
ghost use Rattle.claims.specs.Rows.{IsClaim};
ghost use Rattle.workspace.specs.Floor.{Room, RoomIn};
ghost use Rattle.first_word.specs.Finding.{Finds};

use lengths::judge::judge;
use lengths::judged::Judged;
use std::alloc::{AllocError, Global};
use workspace::floor::floor;

/// Of which words a claim holds: of none; of this one first, a column of 32 bits for each place; or
/// it was not found out, since more classes would have to be told apart than are allowed.
#[derive(Debug, Drop)]
pub enum Found {
    Nothing,
    First(Vec<u32>),
    TooLarge,
}

/// What is found of the claim that the bytes are, with at most n classes told apart, where its words
/// can be counted. Fails for memory alone.
/// A first word is shorter than there are classes, so two words for each class are room for both
/// first words.
pub fn first_word_in(alloc: Global, claim: &[u8], n: u32) -> Result<Found, AllocError>
    requires claim { IsClaim claim.now }
    requires fits { RoomIn (2 ^ 64 - 1) claim.now n }
    ensures { IfOk result (λ found. Finds claim.now n found) }
{
    let mut work = vec![in alloc; 0u32; floor(claim, n) as usize]?;
    let mut out = vec![in alloc; 0u32; 2 * n as usize]?;
    match judge(claim, n, &mut out, &mut work) {
        Judged::Always => Ok(Found::First(Vec::new(alloc))),
        Judged::Never => Ok(Found::Nothing),
        Judged::Both(len, _) => Ok(Found::First(Vec::from_slice(alloc, &out[..len])?)),
        Judged::Many => Ok(Found::TooLarge),
        Judged::NoClaim | Judged::OutFull(_, _) | Judged::Few => unreachable!(),
    }
}

/// The same, in 4 MiB.
pub fn first_word(alloc: Global, claim: &[u8], n: u32) -> Result<Found, AllocError>
    requires claim { IsClaim claim.now }
    requires fits { Room claim.now n }
    ensures { IfOk result (λ found. Finds claim.now n found) }
{
    first_word_in(alloc, claim, n)
}
