// Memory in which pairs of classes are found.
ghost use Rattle.std.specs.Prelude.{◌≡◌, ◌+◌, ◌*◌, ◌^◌, ◌<◌, ◌≤◌, length};

use tables::cells::WordTable;

/// The pairs of classes of two tables over words of the same sets. Pair number i is (lefts[i],
/// rights[i]), and `index` has a word for every pair of classes.
/// There is room for one pair more than `most`; what the memory held before does not matter.
#[derive(Drop)]
pub struct Pairs<'a, 'b, 'm> {
    pub left: WordTable<'a>,
    pub right: WordTable<'b>,
    pub most: usize,
    pub lefts: &'m mut [u32],
    pub rights: &'m mut [u32],
    pub index: &'m mut [u32],
    ghost same_sets: { left.sets ≡ right.sets },
    ghost start_left: { 0 < left.table.classes },
    ghost start_right: { 0 < right.table.classes },
    ghost lefts_fit: { most < length lefts.now },
    ghost rights_fit: { most < length rights.now },
    ghost index_fits: { left.table.classes * right.table.classes ≤ length index.now },
}
