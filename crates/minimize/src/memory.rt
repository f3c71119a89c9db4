// Memory in which the classes of a table are parted.
ghost use Rattle.std.specs.Prelude.{◌≡◌, ◌*◌, ◌^◌, ◌<◌, ◌≤◌, length};

/// For tables of at most `most` classes: the part of each class and the first class of each part,
/// the part of each class as it is split anew, and the pairs of parts that this numbers, with a
/// word of `index` for each pair. What it held before does not matter. The more words the index has
/// beyond these, the faster large tables are parted: from 2 * (classes * columns) + 3 * classes on
/// they are split by the smaller half.
#[derive(Drop)]
pub struct Parts<'m> {
    pub most: usize,
    pub cls: &'m mut [u32],
    pub firsts: &'m mut [u32],
    pub anew: &'m mut [u32],
    pub lefts: &'m mut [u32],
    pub rights: &'m mut [u32],
    pub index: &'m mut [u32],
    ghost cls_fits: { most ≤ length cls.now },
    ghost firsts_fit: { most ≤ length firsts.now },
    ghost anew_fits: { most ≤ length anew.now },
    ghost lefts_fit: { most ≤ length lefts.now },
    ghost rights_fit: { most ≤ length rights.now },
    ghost index_fits: { most * most ≤ length index.now },
}

impl<'m> Parts<'m> {
    /// Cuts five words for each class from the scratch.
    pub fn cut(most: usize, scratch: &'m mut [u32], index: &'m mut [u32]) -> Parts<'m>
        requires few { most < 2 ^ 32 }
        requires scratch { 5 * most ≤ length scratch.old }
        requires index { most * most ≤ length index.old }
        ensures { result.most ≡ most }
    {
        let (cls, rest) = scratch.split_at_mut(most);
        let (firsts, rest) = rest.split_at_mut(most);
        let (anew, rest) = rest.split_at_mut(most);
        let (lefts, rest) = rest.split_at_mut(most);
        let (rights, _) = rest.split_at_mut(most);
        Parts {
            most,
            cls,
            firsts,
            anew,
            lefts,
            rights,
            index,
        }
    }
}
