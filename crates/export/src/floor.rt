// The floor for other languages.
ghost use Rattle.std.specs.Prelude.{◌≡◌, ◌-◌, ◌^◌, ℕ, min};
ghost use Rattle.workspace.specs.Floor.{Width, floor_words};

use workspace::floor::floor;

// How many work words the call asks for; 2^64 - 1 where they are more.
#[unsafe(no_mangle)]
pub extern "C" fn ceivuron_floor(claim: &[u8], most: u32) -> u64
    ensures { (v : ℕ) × Width claim.now v × (result ≡ min (floor_words v claim.now most) (2 ^ 64 - 1)) }
{
    floor(claim, most).min(u128::from(u64::MAX)) as u64
}
