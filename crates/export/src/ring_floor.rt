// The floor of the call on a ring claim, for other languages.
ghost use Rattle.std.specs.Prelude.{◌≡◌, ◌-◌, ◌^◌, ℕ, min};
ghost use Rattle.ring_judge.specs.Made.{RingFloor};

use ring_judge::floor::ring_floor;

// How many work words the call asks for, 0 where no claim about sets is made of the bytes; 2^64 - 1 where they are more.
#[unsafe(no_mangle)]
pub extern "C" fn ceivuron_ring_floor(claim: &[u8], most: u32) -> u64
    ensures { (f : ℕ) × RingFloor claim.now most f × (result ≡ min f (2 ^ 64 - 1)) }
{
    ring_floor(claim, most).min(u128::from(u64::MAX)) as u64
}
