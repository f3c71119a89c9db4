// A row's columns without the row's own set.
ghost use Rattle.std.specs.Prelude.{◌≡◌, ◌+◌, ◌%◌, ◌^◌, ◌<◌, ◌≤◌, ◌++◌, length, map, drop};

// The columns without bit `bits`, the row's, and without what is above it.
fn write_modules(bits: u8, marked: &[u32], out: &mut [u32])
    requires bits { bits < 32 }
    requires room { length out.old ≡ length marked.now }
    ensures { out.new ≡ map (λ a. a % 2 ^ bits) marked.now }
{
    let mark = 1u32 << bits;
    for (i, a) in marked.iter().enumerate() {
        out[i] = *a % mark;
    }
}

/// Writes two rows one behind the other into out, without the row's own set; what stands behind them stays.
pub fn write_rows(bits: u8, first: &[u32], second: &[u32], out: &mut [u32])
    requires bits { bits < 32 }
    requires room { length first.now + length second.now ≤ length out.old }
    ensures { out.new ≡ map (λ a. a % 2 ^ bits) first.now ++ (map (λ a. a % 2 ^ bits) second.now ++ drop (length first.now + length second.now) out.old) }
{
    let a = first.len();
    let end = a + second.len();
    write_modules(bits, first, &mut out[..a]);
    write_modules(bits, second, &mut out[a..end]);
}
