// The modules of a row, without the mark that there are modules.
ghost use Rattle.std.specs.Prelude.{◌≡◌, ◌%◌, ◌^◌, ◌<◌, IfOk, map};

use std::alloc::{AllocError, Global};

/// The columns without bit `bits`, the mark, and without what is above it.
pub fn modules(alloc: Global, bits: u8, marked: &[u32]) -> Result<Vec<u32>, AllocError>
    requires { bits < 32 }
    ensures { IfOk result (λ row. row.items ≡ map (λ a. a % 2 ^ bits) marked.now) }
{
    let mark = 1u32 << bits;
    marked.iter().map(|a| *a % mark).collect(alloc)
}
