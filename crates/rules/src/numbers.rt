// Which set is which bit of a module.
ghost use Rattle.std.specs.Prelude.{◌≡◌};
ghost use Rattle.rows.specs.Faults.{member};
ghost use Rattle.rows.specs.RuleLocal.{set_of};
ghost use Rattle.rules.specs.Numbers.{number_of};

use rows::rule::Asked;

/// The sets of modules of `bits` bits: set j is bit j, and set `bits` the row. The bits listed in `after` are of the row after the step, bit j as set `bits + 1 + j`, and the others of the row itself.
#[derive(Clone, Copy)]
pub struct Numbers<'a> {
    pub bits: u8,
    pub after: &'a [u8],
}

/// Whether j is one of the bits.
pub fn is_among(bits: &[u8], j: u8) -> bool
    ensures { result ≡ member bits.now j }
{
    for i in bits {
        if j == *i {
            return true;
        }
    }
    false
}

impl Numbers<'_> {
    /// The number of the set that is bit j.
    pub fn of_bit(&self, j: u8) -> u16
        ensures { result ≡ number_of self.now j }
    {
        if is_among(self.after, j) {
            self.bits as u16 + 1 + j as u16
        } else {
            j as u16
        }
    }

    /// The set that is asked for: the row's own set, whose number is that of its bits, or a bit's.
    pub fn of_asked(&self, asked: Asked) -> u16
        ensures { result ≡ set_of self.now.bits (number_of self.now) asked }
    {
        match asked {
            Asked::There => self.bits as u16,
            Asked::Bit(j) => self.of_bit(j),
        }
    }
}
