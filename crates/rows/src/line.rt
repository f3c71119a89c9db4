// Patterns and lines of a table. In contracts a pattern is the list of its literals.
ghost use Rattle.std.specs.Prelude.{◌≡◌};

use crate::rule::{Literal, NewBit};
use std::marker::Model;

/// A module and its neighbours fit a pattern if all of its literals are as they say.
#[derive(Debug, Drop)]
pub struct Pattern {
    literals: Vec<Literal>,
}

impl Model for Pattern {
    ghost use Rattle.std.specs.Prelude.{List};
    ghost use Rattle.rows.specs.declared.rule.Literal.{Literal};

    ghost Value = { List Literal };

    ghost view = { λ p. p.literals.items };
}

impl Pattern {
    /// The pattern of these literals. Of the empty list it fits every module.
    pub fn new(literals: Vec<Literal>) -> Pattern
        ensures { result ≡ literals.items }
    {
        Pattern { literals }
    }

    /// Its literals, in their order.
    pub fn literals(&self) -> &[Literal]
        ensures { result.now ≡ self.now }
    {
        &self.literals
    }
}

/// A line of a table: when it counts, the bits of the module after the step (bits without an entry stay), and whether the module moves.
#[derive(Debug, Drop)]
pub struct Line {
    when: Vec<Literal>,
    bits: Vec<NewBit>,
    moves: bool,
}

impl Model for Line {
    ghost use Rattle.rows.specs.Rules as rules;

    ghost Value = { rules.Line };

    ghost view = { λ l. record { when = l.when.items; bits = l.bits.items; moves = l.moves } };
}

impl Line {
    /// The line of these parts; entry j of `bits` is for bit j.
    pub fn new(when: Vec<Literal>, bits: Vec<NewBit>, moves: bool) -> Line
        ensures { result ≡ record { when = when.items; bits = bits.items; moves = moves } }
    {
        Line { when, bits, moves }
    }

    /// The literals that all have to be as they say for the line to count.
    pub fn when(&self) -> &[Literal]
        ensures { result.now ≡ self.now.when }
    {
        &self.when
    }

    /// The module's bits after the step: entry j is for bit j, and a bit without an entry stays.
    pub fn bits(&self) -> &[NewBit]
        ensures { result.now ≡ self.now.bits }
    {
        &self.bits
    }

    /// Whether the module moves, or waits.
    pub fn moves(&self) -> bool
        ensures { result ≡ self.now.moves }
    {
        self.moves
    }
}
