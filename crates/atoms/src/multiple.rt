// Counting by a number: the machine remembers how many places there have been, round and round.
ghost use Rattle.kinds.specs.Counters.{counter};
ghost use Rattle.kinds.specs.declared.atom.Atom.TheVariants.{Counted};
ghost use Rattle.kinds.proofs.CounterLaws.{counter_right};
ghost use Rattle.narrowing.proofs.LooksLaws.{counter_looks};

use crate::kind::Kind;
use kinds::multiple::Multiple;
use words::bits::{Set, has_bit};

impl Kind for Multiple {
    type State = u8;

    ghost atom = { Counted };

    ghost number = { λ q. q };

    ghost machine = { counter };

    fn start(&self) -> u8 {
        0
    }

    fn step(&self, q: u8, column: u32) -> u8 {
        if !has_bit(column, Set(self.set as u8)) {
            q
        } else if q < self.remainder.modulus - 1 {
            q + 1
        } else {
            0
        }
    }

    fn ends(&self, q: u8) -> bool {
        q == self.remainder.rest
    }

    fn same(p: u8, q: u8) -> bool {
        p == q
    }

    ghost told = { λ p q e. e };

    ghost right = { counter_right };

    ghost looks = { counter_looks };
}
