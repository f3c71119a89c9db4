// How many classes may be told apart with the memory that there is.
ghost use Rattle.std.specs.Prelude.{◌+◌, ◌<◌, ◌≤◌, ◌↔◌, IsTrue, length};
ghost use Rattle.workspace.specs.Extents.{IsExtent};
ghost use Rattle.workspace.specs.Floor.{Room, NoRoom, RoomIn, NoRoomIn};

use crate::extent::{Extent, extent_of};
use crate::floor::floor_of;

/// The words of all buffers: 4 MiB.
pub const MOST_WORDS: u64 = 1048576;

// Whether a claim's work words, its two first words and the copies that are shown fit into so many
// words.
fn has_room(claim: &[u8], extent: Option<Extent>, most: u32, words: u64) -> bool
    requires told { IsExtent claim.now extent }
    ensures { IsTrue result ↔ RoomIn words claim.now most }
{
    floor_of(claim, extent, most) + 4 * u128::from(most) <= u128::from(words)
}

/// Whether a claim's work words, its two first words and the copies that are shown fit into 4 MiB.
pub fn fits(claim: &[u8], most: u32) -> bool
    ensures { IsTrue result ↔ Room claim.now most }
{
    has_room(claim, extent_of(claim), most, MOST_WORDS)
}

/// The largest number of classes up to `most` that fits into so many words, 4 MiB at least. The
/// invariant: so many classes fit; of no classes each claim's words do.
pub fn largest_in(claim: &[u8], most: u32, words: u64) -> u32
    requires claim { length claim.now ≤ 1024 }
    requires words { 1048576 ≤ words }
    ensures within { result ≤ most }
    ensures fits { RoomIn words claim.now result }
    ensures largest { result < most → NoRoomIn words claim.now (result + 1) }
{
    let extent = extent_of(claim);
    let mut n = 0;
    while n < most && has_room(claim, extent, n + 1, words) {
        n += 1;
    }
    n
}

/// The largest number of classes up to `most` that fits into 4 MiB.
pub fn largest(claim: &[u8], most: u32) -> u32
    requires { length claim.now ≤ 1024 }
    ensures within { result ≤ most }
    ensures fits { Room claim.now result }
    ensures largest { result < most → NoRoom claim.now (result + 1) }
{
    largest_in(claim, most, MOST_WORDS)
}
