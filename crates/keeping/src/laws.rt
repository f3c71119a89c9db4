// Theorems about what a step keeps, each the contract of a function.
ghost use Rattle.keeping.specs.Laws.{AtEveryTime, KeptOrBroken, BrokenInParts, BreachesTold};

/// What is kept holds at every time of every run.
pub fn at_every_time() -> bool
    ensures { AtEveryTime }
{
    true
}

/// A claim is kept exactly if no row shows that it is not.
pub fn kept_or_broken() -> bool
    ensures { KeptOrBroken }
{
    true
}

/// A row shows that two claims together are not kept exactly if it shows so of one of them.
pub fn broken_in_parts() -> bool
    ensures { BrokenInParts }
{
    true
}

/// The claims that are judged tell of the rows that show it.
pub fn breaches_told() -> bool
    ensures { BreachesTold }
{
    true
}
