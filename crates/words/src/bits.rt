// One bit of a column: whether a set has the column's place.
ghost use Rattle.std.specs.Prelude.{◌≡◌, ℕ, ◌<◌, true, false, ◌≢◌};
ghost use Rattle.words.specs.Words.{bit};

// The number of a set.
#[derive(Clone, Copy)]
pub struct Set(pub u8);

// Whether the column has set x.
pub fn has_bit(column: u32, x: Set) -> bool
    requires { x.0 < 32 }
    ensures { result ≡ bit x.0 column }
{
    (column >> x.0) & 1 == 1
}

// The column with set x, all other sets as they were.
pub fn with_bit(column: u32, x: Set) -> u32
    requires { x.0 < 32 }
    ensures here { bit x.0 result ≡ true }
    ensures others { (y : ℕ) → (y ≢ x.0) → bit y result ≡ bit y column }
{
    column | (1 << x.0)
}

// The column without set x, all other sets as they were.
pub fn without_bit(column: u32, x: Set) -> u32
    requires { x.0 < 32 }
    ensures here { bit x.0 result ≡ false }
    ensures others { (y : ℕ) → (y ≢ x.0) → bit y result ≡ bit y column }
{
    column & !(1 << x.0)
}
