// Relations: what is left of one is what its machine remembers.
ghost use Rattle.kinds.specs.Residuals.{number, residuals};
ghost use Rattle.kinds.specs.declared.atom.Atom.TheVariants.{Related};
ghost use Rattle.kinds.proofs.ResidualLaws.{residual_told, residual_right};
ghost use Rattle.narrowing.proofs.LooksLaws.{residual_looks};

use crate::kind::Kind;
use kinds::relation::Relation;
use kinds::residual::Residual;
use words::bits::{Set, has_bit};

impl Kind for Relation {
    type State = Residual;

    ghost atom = { Related };

    ghost number = { number };

    ghost machine = { residuals };

    fn start(&self) -> Residual {
        Residual::whole(*self)
    }

    fn step(&self, q: Residual, column: u32) -> Residual {
        let (x, y) = self.sets();
        q.after(has_bit(column, Set(x as u8)), has_bit(column, Set(y as u8)))
    }

    fn ends(&self, q: Residual) -> bool {
        q.ends()
    }

    fn same(p: Residual, q: Residual) -> bool {
        p == q
    }

    ghost told = { residual_told };

    ghost right = { residual_right };

    ghost looks = { residual_looks };
}
