// Memory in which sets of classes are found.
ghost use Rattle.std.specs.Prelude.{◌+◌, ◌*◌, ◌<◌, ◌≤◌, length};

use crate::projection::Projection;

/// The sets of live classes of a projection: row i of `sets` is set i, and a row is found again by
/// hashing. There is room for one set more than `most`, best with as many heads; what the memory
/// held before does not matter.
#[derive(Drop)]
pub struct Sets<'a, 'b, 'm> {
    pub part: Projection<'a, 'b>,
    pub most: usize,
    pub sets: &'m mut [u32],
    pub heads: &'m mut [u32],
    pub links: &'m mut [u32],
    pub buckets: &'m mut [u32],
    ghost sets_fit: { (most + 1) * part.w ≤ length sets.now },
    ghost heads_fit: { 0 < length heads.now },
    ghost links_fit: { most < length links.now },
    ghost buckets_fit: { most < length buckets.now },
}
