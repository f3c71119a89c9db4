// Theorems about claims that are kept together, each the contract of a function.
ghost use Rattle.strengthening.specs.Pruning.{StartRefutes, StepRefutes};
ghost use Rattle.strengthening.specs.Laws.{OneFewest, HelpedAlways};

/// There is at most one answer.
pub fn one_fewest() -> bool
    ensures { OneFewest }
{
    true
}

/// A claim that is kept with others holds at every time of every run.
pub fn helped_always() -> bool
    ensures { HelpedAlways }
{
    true
}

/// What a row of the start refutes.
pub fn start_refutes() -> bool
    ensures { StartRefutes }
{
    true
}

/// What a row and the row after it refute.
pub fn step_refutes() -> bool
    ensures { StepRefutes }
{
    true
}
