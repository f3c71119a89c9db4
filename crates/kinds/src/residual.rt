// What is left of a relation once columns are read.
ghost use Rattle.std.specs.Prelude.{◌≡◌};
ghost use Rattle.kinds.specs.Residuals.{after, ends, whole};

use crate::relation::Relation;

/// What can be left of a claim about sets x and y. Inside: x within y; One: x single; Behind: x
/// next y; Far: x before y; Alone: x has no place and y one;
/// Here: x none and y the first place alone; Clear: neither has any; Gone: x has none; Dead:
/// nothing can hold any more.
#[derive(Clone, Copy, Debug, PartialEq, Eq)]
pub enum Residual {
    Inside,
    One,
    Behind,
    Far,
    Alone,
    Here,
    Clear,
    Gone,
    Dead,
}

impl Residual {
    /// The whole claim.
    pub fn whole(relation: Relation) -> Residual
        ensures { result ≡ whole relation }
    {
        match relation {
            Relation::Within(_, _) => Residual::Inside,
            Relation::Single(_) => Residual::One,
            Relation::Next(_, _) => Residual::Behind,
            Relation::Before(_, _) => Residual::Far,
        }
    }

    /// What is left after a column that has x or not, and y or not.
    pub fn after(self, x: bool, y: bool) -> Residual
        ensures { result ≡ after self x y }
    {
        match (self, x, y) {
            (Residual::Inside, true, false) => Residual::Dead,
            (Residual::Inside, _, _) => Residual::Inside,
            (Residual::One, true, _) => Residual::Gone,
            (Residual::One, false, _) => Residual::One,
            (Residual::Behind, true, false) => Residual::Here,
            (Residual::Behind, false, false) => Residual::Behind,
            (Residual::Far, true, false) => Residual::Alone,
            (Residual::Far, false, false) => Residual::Far,
            (Residual::Alone, false, true) => Residual::Clear,
            (Residual::Alone, false, false) => Residual::Alone,
            (Residual::Here, false, true) => Residual::Clear,
            (Residual::Clear, false, false) => Residual::Clear,
            (Residual::Gone, false, _) => Residual::Gone,
            (_, _, _) => Residual::Dead,
        }
    }

    /// Whether it holds where nothing follows.
    pub fn ends(self) -> bool
        ensures { result ≡ ends self }
    {
        matches!(self, Residual::Inside | Residual::Clear | Residual::Gone)
    }
}
