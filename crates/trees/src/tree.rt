// The tree of a text. Whether a part is a formula, a place or a set is not told here: names decide that.
use crate::position::Span;

#[derive(Drop)]
pub struct Name {
    pub text: String,
    pub span: Span,
}

#[derive(Clone, Copy, Debug, PartialEq, Eq)]
pub enum Unary {
    Not,
    Min,
    Max,
    IsEmpty,
}

#[derive(Clone, Copy, Debug, PartialEq, Eq)]
pub enum Binary {
    Iff,
    Implies,
    Or,
    And,
    In,
    NotIn,
    Sub,
    Equal,
    Differs,
    Less,
    AtMost,
    Greater,
    AtLeast,
    Union,
    Inter,
    Without,
    Plus,
    Minus,
}

#[derive(Clone, Copy, Debug, PartialEq, Eq)]
pub enum Sort {
    Place,
    Set,
}

#[derive(Clone, Copy, Debug, PartialEq, Eq)]
pub enum Quantifier {
    Some,
    All,
}

/// A part of a text of some kind, and where it stands.
#[derive(Drop)]
pub struct Spanned<K> {
    pub kind: K,
    pub span: Span,
}

/// What is said at some place of a text.
#[derive(Drop)]
pub enum ExprKind {
    True,
    False,
    Empty,
    Number(u32),
    Named(Name),
    Listed(Vec<Expr>),
    Unary(Unary, Box<Expr>),
    Binary(Binary, Box<Expr>, Box<Expr>),
    Bound(Quantifier, Sort, Vec<Name>, Box<Expr>),
    Call(Name, Vec<Expr>),
    /// `|S| mod m = r`: how many places the set S has is a multiple of m, and r besides. Behind the set stand m and r, each with its place.
    Count(Box<Expr>, Spanned<u32>, Spanned<u32>),
}

/// A formula or a term: what it says, and where it stands.
pub type Expr = Spanned<ExprKind>;

#[derive(Drop)]
pub struct Parameter {
    pub sort: Sort,
    pub name: Name,
}

#[derive(Drop)]
pub struct Predicate {
    pub name: Name,
    pub parameters: Vec<Parameter>,
    pub body: Expr,
}

/// How places that follow one another end: a row's with a last one, which has this name; a ring's do not, since behind the last comes the first again.
#[derive(Drop)]
pub enum Ends {
    Last(Name),
    Round,
}

/// The row or the ring of which a text speaks: the name of the set of its places, and how they end.
#[derive(Drop)]
pub struct Row {
    pub places: Name,
    pub ends: Ends,
}

/// What stands in a text up to a semicolon: names that are declared, the row or the ring of which is spoken from here on, a predicate, what is assumed, what is claimed.
#[derive(Drop)]
pub enum Item {
    Free(Sort, Vec<Name>),
    Row(Row),
    Predicate(Predicate),
    Assert(Expr),
    Formula(Expr),
}
