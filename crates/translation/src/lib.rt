// The claim that is made of a formula is a definition and carries no code. What is proved of it stands on the contracts of these functions, so that no check passes without its proof.
#![tactic(auto)]

ghost use Rattle.translation.specs.Numbers.{LowestFree};
ghost use Rattle.translation.specs.Settles.{Settles};

// The claim of a formula holds of a word exactly if the formula holds of the places and sets that the word gives its names.
pub fn settles_stands() -> bool
    ensures { Settles }
{
    true
}

// A set that is bound gets the lowest number that no set has which its part speaks of.
pub fn lowest_free_stands() -> bool
    ensures { LowestFree }
{
    true
}
