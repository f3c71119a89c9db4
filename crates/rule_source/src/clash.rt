// Patterns that nothing fits, and patterns that fit wherever another does.
// Beyond an end of a line stands nothing, and there no bit is set: so a bit that is set says that a module stands there. In a ring each module has a
// neighbour on both sides: that there is none fits nowhere, and that there is one asks nothing.
ghost use Rattle.std.specs.Prelude.{[], ◌∷◌, ◌++◌, MatchBool};
ghost use Rattle.std.specs.Bool.{OnFalse, OnTrue};
ghost use Rattle.rule_source.specs.Clash.{AlwaysStands, CanAsk, FitsNone, FitsWherever};

use rows::rule::{Asked, Layout, Literal, Side};

// Whether a module stands there, whatever the row: at the module's own place, and in a ring beside it.
#[tactic(auto, using(crate::proofs::ClashLaws::own_stands, crate::proofs::ClashLaws::ring_stands))]
fn always_stands(layout: Layout, side: Side) -> bool
    ensures { MatchBool result (AlwaysStands layout side) (AlwaysStands layout side → ⊥) }
{
    match (layout, side) {
        (_, Side::Own) | (Layout::Ring, _) => true,
        (Layout::Line, Side::Left) => false,
        (Layout::Line, Side::Right) => false,
    }
}

// Whether no module can be as the literal says: that there is none where one always stands.
#[tactic(auto, using(crate::proofs::ClashLaws::none_stands))]
fn excludes_all(layout: Layout, p: Literal) -> bool
    ensures none { OnTrue result (FitsNone layout (p ∷ [])) }
    ensures some { OnFalse result (CanAsk layout p) }
{
    p.asked == Asked::There && !p.set && always_stands(layout, p.side)
}

// Whether no module can be as both say: the same is asked to be so and not so, or something is so where no module stands.
#[tactic(auto, using(crate::proofs::ClashLaws::opposite_fits_none, crate::proofs::ClashLaws::nothing_there_fits_none, crate::proofs::ClashLaws::fits_none_swap))]
fn excludes(p: Literal, q: Literal) -> bool
    ensures { OnTrue result ((s : Layout) → FitsNone s (p ∷ q ∷ [])) }
{
    if p.side != q.side {
        return false;
    }
    if p.asked == q.asked {
        return p.set != q.set;
    }
    p.asked == Asked::There && !p.set && q.set || q.asked == Asked::There && !q.set && p.set
}

/// Whether no module can be as the first literals say and as the last says. It is so where the last asks that none stands where one always does.
pub fn clashes(layout: Layout, ps: &[Literal], p: Literal) -> bool
    ensures none { OnTrue result (FitsNone layout (ps.now ++ p ∷ [])) }
    ensures some { OnFalse result (CanAsk layout p) }
{
    let [q, rest @ ..] = ps else {
        return excludes_all(layout, p);
    };
    excludes(*q, p) || clashes(layout, rest, p)
}

// Whether whatever is as p says is as q says.
fn gives(p: Literal, q: Literal) -> bool
    ensures { OnTrue result ((s : Layout) → FitsWherever s (q ∷ []) (p ∷ [])) }
{
    if p == q {
        return true;
    }
    p.side == q.side
        && (q.asked == Asked::There && q.set && p.set
            || p.asked == Asked::There && !p.set && !q.set)
}

// Whether the literal asks nothing: that there is a neighbour, in a ring.
#[tactic(auto, using(crate::proofs::ClashLaws::one_stands))]
fn asks_nothing(layout: Layout, q: Literal) -> bool
    ensures { OnTrue result (FitsWherever layout (q ∷ []) []) }
{
    layout == Layout::Ring && q.asked == Asked::There && q.set && always_stands(layout, q.side)
}

// Whether whatever is as the first literals say is as the second says.
fn implies(layout: Layout, ps: &[Literal], q: Literal) -> bool
    ensures { OnTrue result (FitsWherever layout (q ∷ []) ps.now) }
{
    let [p, rest @ ..] = ps else {
        return asks_nothing(layout, q);
    };
    gives(*p, q) || implies(layout, rest, q)
}

/// Whether a pattern fits wherever another does.
pub fn covers(layout: Layout, wide: &[Literal], narrow: &[Literal]) -> bool
    ensures { OnTrue result (FitsWherever layout wide.now narrow.now) }
{
    let [q, rest @ ..] = wide else {
        return true;
    };
    implies(layout, narrow, *q) && covers(layout, rest, narrow)
}
