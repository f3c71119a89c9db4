// The product of two tables: a class for each pair of classes that a word leads to. A search that
// starts at the pair of starts finds them (`worklist::explore`); whether a pair was found before
// takes one look-up.
ghost use Rattle.std.specs.Prelude.{◌≡◌, ◌<◌, ◌≤◌, MatchOption};
ghost use Rattle.automata.specs.Product.{Pair};
ghost use Rattle.worklist.specs.Search.{Tabled, Excess};
ghost use Rattle.product.specs.Pairs.{IsPair, both, pairs_of};

use crate::memory::Pairs;
use tables::cells::Class;
use tables::numbering::{Sizes, find_pair, note_pair};
use tables::sheet::Sheet;
use worklist::explore::{Frontier, explore};

impl Frontier for Pairs<'_, '_, '_> {
    ghost Thing = { Pair };

    type Origin = (Class, Class);

    ghost seen = { pairs_of };

    ghost Of = { IsPair };

    fn begin(&mut self) {
        let sizes = Sizes {
            left: self.left.table.classes,
            right: self.right.table.classes,
        };
        note_pair(
            self.lefts,
            self.rights,
            self.index,
            0,
            sizes,
            Class(0),
            Class(0),
        );
    }

    fn open(&self, _m: usize, i: usize) -> (Class, Class) {
        (Class(self.lefts[i]), Class(self.rights[i]))
    }

    fn follow(&mut self, m: usize, _i: usize, origin: (Class, Class), a: u32) -> usize {
        let (left, right) = (self.left.table, self.right.table);
        let sizes = Sizes {
            left: left.classes,
            right: right.classes,
        };
        let (lefts, rights, index) = (&mut *self.lefts, &mut *self.rights, &mut *self.index);
        let (p, q) = origin;
        let (x, y) = (left.next(p, a), right.next(q, a));
        if let Some(j) = find_pair(lefts, rights, index, m, sizes, x, y) {
            return j;
        }
        note_pair(lefts, rights, index, m, sizes, x, y);
        m
    }

    fn accepts(&self, _m: usize, i: usize) -> bool {
        let (left, right) = (self.left.table, self.right.table);
        left.accepts(Class(self.lefts[i])) && right.accepts(Class(self.rights[i]))
    }
}

/// The product of two tables, written on the sheet: how many classes it has, or that they are more
/// than the sheet has room for.
/// The pairs need room for as many. What sheet and pairs held before does not matter.
pub fn product(pairs: &mut Pairs, sheet: &mut Sheet) -> Option<usize>
    requires sets { pairs.old.left.sets ≡ sheet.old.shape.sets }
    requires some { 0 < sheet.old.shape.most }
    requires room { sheet.old.shape.most ≤ pairs.old.most }
    ensures { MatchOption result (Excess (both pairs.old.left pairs.old.right) sheet.old.shape.most) (Tabled (both pairs.old.left pairs.old.right) sheet.old sheet.new) }
{
    explore(pairs, sheet)
}
