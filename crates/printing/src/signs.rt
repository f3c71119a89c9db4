// The words of signs, quantifiers and sorts, and how tight a tree binds.
ghost use Rattle.std.specs.Prelude.{◌≡◌, ◌≤◌};
ghost use Rattle.tokens.specs.Words.{word};
ghost use Rattle.syntax.specs.Plain.{sign_of, quantifier_of};
ghost use Rattle.syntax.specs.Items.{sort_word};
ghost use Rattle.syntax.specs.Parsing.{level_of, right_of};
ghost use Rattle.syntax.specs.Rows.{is_rows};
ghost use Rattle.syntax.specs.Printed.{level, left_of};
ghost use Rattle.syntax.specs.Views.{view};

use syntax::operators::{CLOSED, EXTREME, NOT, tightness_of};
use tokens::kind::Kind;
use trees::tree::{Binary, Expr, ExprKind, Quantifier, Sort, Unary};

/// The word of an operator: its kind and its text.
pub fn sign_word(binary: Binary) -> (Kind, &'static str)
    ensures { word result.0 result.1.now ≡ sign_of binary }
{
    match binary {
        Binary::Iff => (Kind::Iff, "<=>"),
        Binary::Implies => (Kind::Implies, "=>"),
        Binary::Or => (Kind::Or, "|"),
        Binary::And => (Kind::And, "&"),
        Binary::In => (Kind::In, "in"),
        Binary::NotIn => (Kind::NotIn, "notin"),
        Binary::Sub => (Kind::Sub, "sub"),
        Binary::Equal => (Kind::Equal, "="),
        Binary::Differs => (Kind::Differs, "~="),
        Binary::Less => (Kind::Less, "<"),
        Binary::AtMost => (Kind::AtMost, "<="),
        Binary::Greater => (Kind::Greater, ">"),
        Binary::AtLeast => (Kind::AtLeast, ">="),
        Binary::Union => (Kind::Union, "union"),
        Binary::Inter => (Kind::Inter, "inter"),
        Binary::Without => (Kind::Without, "\\"),
        Binary::Plus => (Kind::Plus, "+"),
        Binary::Minus => (Kind::Minus, "-"),
    }
}

/// The word of a quantifier over a sort.
pub fn quantifier_word(quantifier: Quantifier, sort: Sort) -> (Kind, &'static str)
    ensures { word result.0 result.1.now ≡ quantifier_of quantifier sort }
{
    match (quantifier, sort) {
        (Quantifier::Some, Sort::Place) => (Kind::Ex1, "ex1"),
        (Quantifier::Some, Sort::Set) => (Kind::Ex2, "ex2"),
        (Quantifier::All, Sort::Place) => (Kind::All1, "all1"),
        (Quantifier::All, Sort::Set) => (Kind::All2, "all2"),
    }
}

/// The word before free names and parameters of a sort.
pub fn sort_word(sort: Sort) -> (Kind, &'static str)
    ensures { word result.0 result.1.now ≡ sort_word sort }
{
    match sort {
        Sort::Place => (Kind::Var1, "var1"),
        Sort::Set => (Kind::Var2, "var2"),
    }
}

/// Whether an expression is the name `rows` or `rings` alone.
pub fn is_rows(expr: &Expr) -> bool
    ensures { result ≡ is_rows (view expr.now.kind) }
{
    match &expr.kind {
        ExprKind::Named(name) => {
            let word = name.text.as_bytes();
            word == b"rows".as_slice() || word == b"rings".as_slice()
        }
        _ => false,
    }
}

/// How tight an expression binds.
pub fn level(expr: &Expr) -> u8
    ensures { result ≡ level (view expr.now.kind) }
{
    match &expr.kind {
        ExprKind::Bound(_, _, _, _) => 0,
        ExprKind::Unary(Unary::Not, _) => NOT,
        ExprKind::Unary(Unary::Min, _) | ExprKind::Unary(Unary::Max, _) => EXTREME,
        ExprKind::Binary(binary, _, _) => tightness_of(*binary).level,
        _ => CLOSED,
    }
}

/// How tight what stands left of an operator has to bind.
#[tactic(auto, using(crate::proofs::SignsLaws::same_right, crate::proofs::SignsLaws::other_right))]
pub fn left_of(binary: Binary) -> u8
    ensures { result ≡ left_of binary }
{
    let tight = tightness_of(binary);
    if tight.right == tight.level {
        tight.level + 1
    } else {
        tight.level
    }
}

/// How tight what stands right of an operator has to bind.
pub fn right_of(binary: Binary) -> u8
    ensures { result ≡ right_of binary }
{
    tightness_of(binary).right
}
