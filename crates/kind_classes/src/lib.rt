// How many classes claims without parts have: theorems about single kinds, each the contract of a
// function. No code.
#![tactic(auto)]

ghost use Rattle.kind_classes.specs.Counted.{CountedClasses};
ghost use Rattle.kind_classes.specs.EqualSets.{EqualSets};

// Of a claim without parts about one set twice there is one class.
pub fn equal_sets_stand() -> bool
    ensures { EqualSets }
{
    true
}

// Counting by m has exactly m classes.
pub fn counted_classes_stand() -> bool
    ensures { CountedClasses }
{
    true
}
