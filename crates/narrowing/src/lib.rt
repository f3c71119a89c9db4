// Tables over the columns of those sets alone that a part mentions: theorems. No code.
#![tactic(auto)]

ghost use Rattle.narrowing.specs.Laws.{NarrowLaws};

// Columns that differ only in sets that a claim does not mention leave the same of it, and no part
// mentions more sets than there are.
pub fn narrow_laws_stand() -> bool
    ensures { NarrowLaws }
{
    true
}
