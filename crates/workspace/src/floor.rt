// How many work words the call asks for.
ghost use Rattle.std.specs.Prelude.{◌≡◌, ◌↔◌, ◌<◌, ◌≤◌, ℕ, IsTrue};
ghost use Rattle.workspace.specs.Extents.{IsExtent, widest_of};
ghost use Rattle.workspace.specs.Floor.{Width, OneWidth, floor_words, NeverAbove};

use crate::extent::{Extent, extent_of};

// The most sets that any part mentions; 0 for bytes that are no claim.
fn width(extent: Option<Extent>) -> u8
    ensures value { result ≡ widest_of extent }
    ensures few { result ≤ 12 }
{
    match extent {
        Some(extent) => extent.widest,
        None => 0,
    }
}

/// The work words that the call asks for, of a claim of which so much is told. For the largest
/// `most` this passes 2^64.
pub fn floor_of(claim: &[u8], extent: Option<Extent>, most: u32) -> u128
    requires told { IsExtent claim.now extent }
    ensures { (v : ℕ) × Width claim.now v × (result ≡ floor_words v claim.now most) }
{
    let columns = 1u128 << width(extent);
    let n = u128::from(most);
    8192 + (64 * claim.len() as u128 + (n + 1) * (16 * columns + (256 + n)))
}

/// Whether so many work words are fewer than the call asks for.
pub fn too_few(words: usize, claim: &[u8], extent: Option<Extent>, most: u32) -> bool
    requires told { IsExtent claim.now extent }
    ensures { (v : ℕ) × Width claim.now v × (IsTrue result ↔ (words < floor_words v claim.now most)) }
{
    (words as u128) < floor_of(claim, extent, most)
}

/// The work words that the call asks for. For the largest `most` this passes 2^64.
pub fn floor(claim: &[u8], most: u32) -> u128
    ensures value { (v : ℕ) × Width claim.now v × (result ≡ floor_words v claim.now most) }
    ensures one { OneWidth }
    ensures never_above { NeverAbove }
{
    floor_of(claim, extent_of(claim), most)
}
