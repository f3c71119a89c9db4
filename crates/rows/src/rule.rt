// How modules lie, what is asked of a module and its neighbours, and what a module's bits come to.

/// A module itself, or the neighbour on one side of it.
#[derive(Clone, Copy, Debug, PartialEq, Eq)]
pub enum Side {
    Left,
    Own,
    Right,
}

/// How the modules of a row lie: in a line, beyond whose two ends there is nothing, or in a ring, in which the last module's right neighbour is the first.
#[derive(Clone, Copy, Debug, PartialEq, Eq)]
pub enum Layout {
    Line,
    Ring,
}

/// What is asked of a module's place or of a neighbour's: whether a module stands there, and whether its bit with this number, from 0 on, is set. Beyond an end of a line neither is so.
#[derive(Clone, Copy, Debug, PartialEq, Eq)]
pub enum Asked {
    There,
    Bit(u8),
}

/// What is asked of the place on one side is so (`set`), or is not so.
#[derive(Clone, Copy, Debug, PartialEq, Eq)]
pub struct Literal {
    pub side: Side,
    pub asked: Asked,
    pub set: bool,
}

/// A bit of a module after the step: set or not, or as the bit with this number of the module or of a neighbour was. Beyond an end of a line no bit is set.
#[derive(Clone, Copy, Debug, PartialEq, Eq)]
pub enum NewBit {
    Fixed(bool),
    AsWas(Side, u8),
}
