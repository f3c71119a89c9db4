// How many choices there are.
ghost use Rattle.std.specs.Prelude.{◌≡◌, ◌≤◌, ◌^◌, MatchOption};
ghost use Rattle.strengthen.specs.Count.{choices};

/// How many choices of at most eight of n things there are, or None if that is 2^64 or more. By Pascal's triangle: of one thing more there are those without
/// it, and those of one number fewer with it.
/// Invariant: `at_most[j]` is how many choices of at most j of the first things there are, and below m already of one thing more; `fewer` is what stood at
/// m - 1.
pub fn choices_of(n: usize) -> Option<u64>
    ensures { MatchOption result (2 ^ 64 ≤ choices n 8) (λ all. all ≡ choices n 8) }
{
    let mut at_most = [1u64; 9];
    for _i in 0..n {
        let mut fewer = 1;
        for m in 1..9 {
            let same = at_most[m];
            at_most[m] = same.checked_add(fewer)?;
            fewer = same;
        }
    }
    Some(at_most[8])
}
