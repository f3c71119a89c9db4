// Operators as they are written, and how tight they bind.
ghost use Rattle.std.specs.Prelude.{ℕ, ◌≡◌, ◌≤◌};
ghost use Rattle.syntax.specs.Parsing.{level_of, right_of, binary_of};

use tokens::kind::Kind;
use trees::tree::Binary;

/// How tight an operator binds: an operand binds tighter than the operators beside it, or stands in parentheses. `from` is how tight the right operand has to bind.
#[derive(Clone, Copy)]
pub struct Tightness {
    pub level: u8,
    pub right: u8,
}

/// The tightness of `~` and of `min` and `max`.
pub const NOT: u8 = 5;

pub const EXTREME: u8 = 8;
/// Names, numbers and what stands in parentheses.
pub const CLOSED: u8 = 13;

pub fn tightness_of(binary: Binary) -> Tightness
    ensures small { result.level ≤ 12 }
    ensures level { result.level ≡ level_of binary }
    ensures right { result.right ≡ right_of binary }
{
    match binary {
        Binary::Iff => Tightness { level: 1, right: 1 },
        Binary::Implies => Tightness { level: 2, right: 2 },
        Binary::Or => Tightness { level: 3, right: 4 },
        Binary::And => Tightness { level: 4, right: 5 },
        Binary::In | Binary::NotIn | Binary::Sub => Tightness { level: 6, right: 7 },
        Binary::Equal
        | Binary::Differs
        | Binary::Less
        | Binary::AtMost
        | Binary::Greater
        | Binary::AtLeast => Tightness { level: 7, right: 8 },
        Binary::Union => Tightness {
            level: 9,
            right: 10,
        },
        Binary::Inter => Tightness {
            level: 10,
            right: 11,
        },
        Binary::Without => Tightness {
            level: 11,
            right: 12,
        },
        Binary::Plus | Binary::Minus => Tightness {
            level: 12,
            right: 13,
        },
    }
}

/// The operator that a kind of token is, if it is one.
pub fn binary(kind: Kind) -> Option<Binary>
    ensures { result ≡ binary_of kind }
{
    match kind {
        Kind::Iff => Some(Binary::Iff),
        Kind::Implies => Some(Binary::Implies),
        Kind::Or => Some(Binary::Or),
        Kind::And => Some(Binary::And),
        Kind::In => Some(Binary::In),
        Kind::NotIn => Some(Binary::NotIn),
        Kind::Sub => Some(Binary::Sub),
        Kind::Equal => Some(Binary::Equal),
        Kind::Differs => Some(Binary::Differs),
        Kind::Less => Some(Binary::Less),
        Kind::AtMost => Some(Binary::AtMost),
        Kind::Greater => Some(Binary::Greater),
        Kind::AtLeast => Some(Binary::AtLeast),
        Kind::Union => Some(Binary::Union),
        Kind::Inter => Some(Binary::Inter),
        Kind::Without => Some(Binary::Without),
        Kind::Plus => Some(Binary::Plus),
        Kind::Minus => Some(Binary::Minus),
        _ => None,
    }
}
