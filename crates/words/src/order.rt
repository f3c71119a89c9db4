// The order of words.
ghost use Rattle.std.specs.Prelude.{◌≡◌};
ghost use Rattle.std.specs.Ordering.{MatchOrdering};
ghost use Rattle.words.specs.Order.{Less, Ordered};

use std::cmp::Ordering;

// Compares by length, and words of one length by the first column that differs.
pub fn compare(u: &[u32], v: &[u32]) -> Ordering
    ensures said { MatchOrdering result (Less u.now v.now) (u.now ≡ v.now) (Less v.now u.now) }
    ensures ordered { Ordered }
{
    if u.len() != v.len() {
        return u.len().cmp(&v.len());
    }
    let mut i = 0;
    loop {
        if i == u.len() {
            break Ordering::Equal;
        }
        if u[i] != v[i] {
            break u[i].cmp(&v[i]);
        }
        i += 1;
    }
}
