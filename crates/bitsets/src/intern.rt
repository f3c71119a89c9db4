// Finds a row among the rows before it, by hashing. The rows of one bucket are chained: heads[h] is
// the last row of bucket h, and links[i] is 1 more than the last row before row i that is in row
// i's bucket, or 0 where there is none. Nothing is cleared before use: heads[h] counts only if it
// is one of the rows and that row is in bucket h.
// Which hash is taken changes no promise: equal rows are in one bucket whatever it is.
ghost use Rattle.std.specs.Prelude.{◌≡◌, ℕ, ◌+◌, ◌*◌, ◌%◌, ◌^◌, ◌<◌, ◌≤◌, length, MatchOption, ◌≢◌, slice_set};
ghost use Rattle.bitsets.specs.Bitrows.{row_at};
ghost use Rattle.bitsets.specs.Intern.{mixed, bucket_of, first_of, Chains, Interned, Fresh, Again};

use crate::bitrows::same_rows;

// Mixes a word into a hash: the two halves of a product, one on the other.
fn mix(h: u32, x: u32) -> u32
    ensures { result ≡ mixed h x }
{
    let z = h as u64 * 0x9E3779B1 + x as u64;
    ((z >> 32) ^ (z % 4294967296)) as u32
}

// The bucket of a row, of n buckets.
fn bucket(row: &[u32], n: usize) -> u32
    requires { 0 < n }
    ensures value { result ≡ bucket_of row.now n }
    ensures below { result < n }
{
    let mut h = 1;
    for word in row {
        h = mix(h, *word);
    }
    (h as usize % n) as u32
}

// 1 more than the last of the first n rows that is in bucket h, or 0.
fn first(heads: &[u32], buckets: &[u32], n: usize, h: u32) -> usize
    requires bucket { h < length heads.now }
    requires buckets { n ≤ length buckets.now }
    ensures { result ≡ first_of heads.now buckets.now n h }
{
    let i = heads[h as usize] as usize;
    if i < n && buckets[i] == h { i + 1 } else { 0 }
}

// Files row n, the next one, under bucket h.
fn file(h: u32, n: usize, heads: &mut [u32], links: &mut [u32], buckets: &mut [u32])
    requires chained { Chains heads.old links.old buckets.old n }
    requires bucket { h < length heads.old }
    requires links { n < length links.old }
    requires buckets { n < length buckets.old }
    requires few { n < 2 ^ 32 }
    ensures chained { Chains heads.new links.new buckets.new (n + 1) }
    ensures filed { buckets.new ≡ slice_set buckets.old n h }
{
    links[n] = first(heads, buckets, n, h) as u32;
    buckets[n] = h;
    heads[h as usize] = n as u32;
}

// Walks along the chain of bucket h for a row that is the same as row n: the rows at and above
// `next` have been ruled out, and links fall.
fn find(
    sets: &[u32],
    w: usize,
    n: usize,
    h: u32,
    heads: &[u32],
    links: &[u32],
    buckets: &[u32],
) -> Option<usize>
    requires interned { Interned sets.now w n heads.now links.now buckets.now }
    requires hash { h ≡ bucket_of (row_at sets.now w n) (length heads.now) }
    requires row { n * w + w ≤ length sets.now }
    requires bucket { h < length heads.now }
    requires links { n ≤ length links.now }
    requires buckets { n ≤ length buckets.now }
    ensures { MatchOption result ((j : ℕ) → j < n → row_at sets.now w j ≢ row_at sets.now w n) (λ j. (j < n) × (row_at sets.now w j ≡ row_at sets.now w n)) }
{
    let mut next = first(heads, buckets, n, h);
    while next > 0 {
        let j = next - 1;
        if same_rows(sets, w, j, n) {
            return Some(j);
        }
        next = links[j] as usize;
    }
    None
}

// The number of the row before row n that is the same set; where there is none, row n is interned.
pub fn intern(
    sets: &[u32],
    w: usize,
    n: usize,
    heads: &mut [u32],
    links: &mut [u32],
    buckets: &mut [u32],
) -> Option<usize>
    requires interned { Interned sets.now w n heads.old links.old buckets.old }
    requires row { n * w + w ≤ length sets.now }
    requires heads { 0 < length heads.old }
    requires links { n < length links.old }
    requires buckets { n < length buckets.old }
    requires few { n < 2 ^ 32 }
    ensures { MatchOption result (Fresh sets.now w n heads.new links.new buckets.new) (Again sets.now w n heads.new links.new buckets.new) }
{
    let h = bucket(&sets[n * w..n * w + w], heads.len());
    match find(sets, w, n, h, heads, links, buckets) {
        Some(j) => Some(j),
        None => {
            file(h, n, heads, links, buckets);
            None
        }
    }
}
