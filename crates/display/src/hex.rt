// Bytes in hex digits.
ghost use Rattle.std.specs.Prelude.{Some};
ghost use Rattle.display.specs.Hex.{hex_of, pair_of};

use std::fmt;

/// Bytes that print as two hex digits each, in lower case, with nothing between them.
#[derive(Clone, Copy, Debug)]
pub struct Hex<'a>(pub &'a [u8]);

// The two digits of a byte.
#[derive(Clone, Copy)]
struct Pair(u8);

impl fmt::Display for Pair {
    ghost output = { λ pair. Some (pair_of pair.0) };

    fn fmt<W: fmt::Write>(&self, f: &mut fmt::Formatter<W>) -> fmt::Result {
        let byte = self.0;
        write!(f, "{byte:02x}")
    }
}

impl fmt::Display for Hex<'_> {
    ghost output = { λ hex. Some (hex_of hex.0.now) };

    fn fmt<W: fmt::Write>(&self, f: &mut fmt::Formatter<W>) -> fmt::Result {
        for byte in self.0 {
            let pair = Pair(*byte);
            write!(f, "{pair}")?;
        }
        Ok(())
    }
}
