// Memory to work in.
ghost use Rattle.std.specs.Prelude.{◌≡◌, ◌+◌, ◌*◌, ◌<◌, ◌≤◌, length};
ghost use Rattle.workspace.specs.Cut.{slot_words, scratch_words, pair_words};

use tables::sheet::Shape;

/// For the tables of the parts of a claim about `sets` sets, of which none is larger than the shape:
/// free slots for them, two spare slots for tables over other columns, scratch, and words for pairs
/// or for sets of classes. What it held before does not matter, and spare, scratch and pairs are
/// held across no call.
#[derive(Drop)]
pub struct Work<'m> {
    pub sets: u32,
    pub shape: Shape,
    pub free: &'m mut [u32],
    pub spare: &'m mut [u32],
    pub scratch: &'m mut [u32],
    pub pairs: &'m mut [u32],
    ghost few: { sets ≤ 12 },
    ghost some: { 0 < shape.most },
    ghost spare_fits: { 2 * slot_words shape.width shape.most ≤ length spare.now },
    ghost scratch_fits: { scratch_words shape.width shape.most ≤ length scratch.now },
    ghost pairs_fit: { pair_words shape.most ≤ length pairs.now },
}

impl Work<'_> {
    /// Cuts nine free slots, two spare ones and scratch; the rest is for pairs.
    pub fn cut(sets: u32, shape: Shape, words: &mut [u32]) -> Work<'_>
        requires few { sets ≤ 12 }
        requires some { 0 < shape.most }
        requires words { 9 * slot_words shape.width shape.most + (2 * slot_words shape.width shape.most + (scratch_words shape.width shape.most + pair_words shape.most)) ≤ length words.old }
        ensures sets { result.sets ≡ sets }
        ensures shape { result.shape ≡ shape }
        ensures free { length result.free.now ≡ 9 * slot_words shape.width shape.most }
    {
        let slot = shape.most * shape.width + shape.most;
        let (free, rest) = words.split_at_mut(9 * slot);
        let (spare, rest) = rest.split_at_mut(2 * slot);
        let (scratch, pairs) = rest.split_at_mut(16 * shape.width + 96 * (shape.most + 4));
        Work {
            sets,
            shape,
            free,
            spare,
            scratch,
            pairs,
        }
    }
}
