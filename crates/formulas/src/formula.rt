// A formula as a tree. Names are numbers here: what a name was in a text, the text's reader knows.
// `t + n` is n times `Succ`, `t - n` n times `Prev`, and the number n is n times `Succ` of `First`.

use kinds::multiple::Remainder;

// A term for a place.
#[derive(Debug, PartialEq, Drop)]
#[cycle(terms)]
pub enum Place {
    Named(u32),
    First,
    Succ(Box<Place>),
    Prev(Box<Place>),
    Least(Box<Group>),
    Most(Box<Group>),
}

// A term for a finite set of places.
#[derive(Debug, PartialEq, Drop)]
#[cycle(terms)]
pub enum Group {
    Named(u32),
    Empty,
    Only(Box<Place>),
    Union(Box<Group>, Box<Group>),
    Inter(Box<Group>, Box<Group>),
    Minus(Box<Group>, Box<Group>),
}

// What may hold of places and sets. `Count`: the set has as many places as the remainder says. `Some1`
// and `All1` bind a place's name, `Some2` and `All2` a set's.
#[derive(Debug, PartialEq, Drop)]
pub enum Formula {
    True,
    Same(Place, Place),
    Less(Place, Place),
    In(Place, Group),
    Sub(Group, Group),
    Count(Group, Remainder),
    Not(Box<Formula>),
    And(Box<Formula>, Box<Formula>),
    Or(Box<Formula>, Box<Formula>),
    Implies(Box<Formula>, Box<Formula>),
    Some1(u32, Box<Formula>),
    All1(u32, Box<Formula>),
    Some2(u32, Box<Formula>),
    All2(u32, Box<Formula>),
}
