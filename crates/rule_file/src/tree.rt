// What stands in a rule file: its statements, in their order, down to their tokens. Written one after the other, the tokens of a tree are those of its
// text (specs/Written.antt).
ghost use Rattle.std.specs.Prelude.{◌≡◌};
ghost use Rattle.rule_file.specs.Claims.{claim_name};

use crate::token::Token;
use trees::position::Span;

/// A word of a pattern's part, as what it asks: nothing (`*`), that there is a module or none, that a bit is set (`tray`) or is not (`!tray`).
#[derive(Clone, Copy)]
pub enum Term {
    Any(Token),
    Module(Token),
    Missing(Token),
    Set(Token),
    // the sign, and the name behind it
    Clear(Token, Token),
}

/// What is asked of the left neighbour, of the module and of the right neighbour, and the bars between.
#[derive(Drop)]
pub struct Pattern {
    pub left: Vec<Term>,
    pub first: Token,
    pub own: Vec<Term>,
    pub second: Token,
    pub right: Vec<Term>,
}

/// The bit whose value a bit takes: `tray`, `left.tray` or `right.tray`. Its name is the last token.
#[derive(Clone, Copy)]
pub enum Source {
    Own(Token),
    Left(Token, Token, Token),
    Right(Token, Token, Token),
}

/// A bit after a step: set (`tray`), not set (`!tray`) or as another bit was (`tray=left.tray`).
#[derive(Clone, Copy)]
pub enum Change {
    Set(Token),
    Clear(Token, Token),
    AsWas(Token, Token, Source),
}

/// Whether the module moves.
#[derive(Clone, Copy)]
pub enum Motion {
    Moves(Token),
    Waits(Token),
}

/// What a line of the table does: the changes before and behind its one word `moves` or `waits`.
#[derive(Drop)]
pub struct Effects {
    pub before: Vec<Change>,
    pub motion: Motion,
    pub after: Vec<Change>,
}

/// A bit of a module behind its first: the sign and the name.
#[derive(Clone, Copy)]
pub struct Joined {
    pub plus: Token,
    pub name: Token,
}

/// A module of a given row: `.`, or the names of its bits with `+` between them.
#[derive(Drop)]
pub enum Module {
    Bare(Token),
    Bits(Token, Vec<Joined>),
}

/// A word with its colon, as `row:`.
#[derive(Clone, Copy)]
pub struct Heading {
    pub word: Token,
    pub colon: Token,
}

/// A word with a name and its colon, as `never gap:`.
#[derive(Clone, Copy)]
pub struct Named {
    pub word: Token,
    pub name: Token,
    pub colon: Token,
}

/// A name with its colon, as `drives_apart:`.
#[derive(Clone, Copy)]
pub struct Label {
    pub name: Token,
    pub colon: Token,
}

/// What stands on a line, but for the names of the bits. A formula is one token.
#[derive(Drop)]
pub enum Statement {
    Allowed(Heading),
    Limit(Heading, Token),
    Pattern(Pattern),
    Table(Heading),
    // a pattern, the arrow, and what it does
    Line(Pattern, Token, Effects),
    // what a run may begin with
    Start(Heading, Token),
    Never(Named, Pattern),
    Claim(Named, Token),
    Kept(Named, Token),
    Helpers(Heading),
    // what may help to keep a claim
    Helper(Label, Token),
    Row(Heading, Vec<Module>),
}

/// A statement and the ends of lines behind it: none only at the end of the file.
#[derive(Drop)]
pub struct Line {
    pub statement: Statement,
    pub ends: Vec<Token>,
}

/// The line `ring:` and the ends of lines behind it. It says that the modules stand in a ring.
#[derive(Drop)]
pub struct RingLine {
    pub heading: Heading,
    pub ends: Vec<Token>,
}

/// A file: the ends of lines before its first line, that first line with the names of the bits, right behind it the line `ring:` if it has one, and the
/// lines below.
#[derive(Drop)]
pub struct File {
    pub front: Vec<Token>,
    pub heading: Heading,
    pub bits: Vec<Token>,
    pub ends: Vec<Token>,
    pub ring: Option<RingLine>,
    pub lines: Vec<Line>,
}

impl Term {
    /// The name of a bit, or the word.
    pub fn name(&self) -> Token {
        match self {
            Term::Any(token)
            | Term::Module(token)
            | Term::Missing(token)
            | Term::Set(token)
            | Term::Clear(_, token) => *token,
        }
    }

    /// Where it stands.
    pub fn span(&self) -> Span {
        match self {
            Term::Clear(sign, name) => sign.span.to(name.span),
            _ => self.name().span,
        }
    }
}

impl Source {
    /// The bit's name.
    pub fn name(&self) -> Token {
        match self {
            Source::Own(name) | Source::Left(_, _, name) | Source::Right(_, _, name) => *name,
        }
    }
}

impl Change {
    /// The name of the bit that changes.
    pub fn name(&self) -> Token {
        match self {
            Change::Set(name) | Change::Clear(_, name) | Change::AsWas(name, _, _) => *name,
        }
    }

    /// Where it stands.
    pub fn span(&self) -> Span {
        match self {
            Change::Set(name) => name.span,
            Change::Clear(sign, name) => sign.span.to(name.span),
            Change::AsWas(name, _, source) => name.span.to(source.name().span),
        }
    }
}

impl Statement {
    /// The name of a claim, at `never`, `claim` and `kept`, or of a helper.
    pub fn claim_name(&self) -> Option<Token>
        ensures { result ≡ claim_name self.now }
    {
        match self {
            Statement::Never(named, _) | Statement::Claim(named, _) | Statement::Kept(named, _) => {
                Some(named.name)
            }
            Statement::Helper(label, _) => Some(label.name),
            _ => None,
        }
    }
}
