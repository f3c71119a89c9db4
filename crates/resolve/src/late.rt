// Where a ring is spoken of, nothing but declarations stands before it: so nothing in the text is about numbers that do not go round.
ghost use Rattle.std.specs.Prelude.{MatchOption};
ghost use Rattle.resolve.specs.Faults.{LateEnds, LateRing};

use crate::fault::Fault;
use trees::position::Span;
use trees::tree::{Ends, Item, Row};

// Where a ring stands, if something else than declarations stands before it.
fn late_ends(row: &Row, late: bool) -> Option<Span>
    ensures { MatchOption result ((f : Fault) → LateEnds late row.now.ends row.now.places.span f → ⊥) (λ span. LateEnds late row.now.ends row.now.places.span (Fault.Late span)) }
{
    match (late, &row.ends) {
        (true, Ends::Round) => Some(row.places.span),
        _ => None,
    }
}

/// Where the first ring stands before which something else than declarations does; of what stands before the items it is said whether it is such.
pub fn late_ring(items: &[Item], late: bool) -> Option<Span>
    ensures { MatchOption result ((f : Fault) → LateRing late items.now f → ⊥) (λ span. LateRing late items.now (Fault.Late span)) }
{
    let [first, rest @ ..] = items else {
        return None;
    };
    match first {
        Item::Free(_, _) => late_ring(rest, late),
        Item::Row(row) => match late_ends(row, late) {
            Some(span) => Some(span),
            None => late_ring(rest, late),
        },
        Item::Predicate(_) | Item::Assert(_) | Item::Formula(_) => late_ring(rest, true),
    }
}
