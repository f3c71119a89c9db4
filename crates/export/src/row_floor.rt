// The floor of the call on a row claim, for other languages.
ghost use Rattle.std.specs.Prelude.{◌≡◌, ◌-◌, ◌^◌, ℕ, min};
ghost use Rattle.row_judge.specs.Made.{RowFloor};

use row_judge::floor::row_floor;

// How many work words the call asks for, 0 where no claim about sets is made of the bytes; 2^64 - 1 where they are more.
#[unsafe(no_mangle)]
pub extern "C" fn ceivuron_row_floor(claim: &[u8], most: u32) -> u64
    ensures { (f : ℕ) × RowFloor claim.now most f × (result ≡ min f (2 ^ 64 - 1)) }
{
    row_floor(claim, most).min(u128::from(u64::MAX)) as u64
}
