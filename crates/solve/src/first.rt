// The first row of which a formula holds, by the bytes of its claim.
ghost use Rattle.std.specs.Prelude.{IfOk, List};
ghost use Rattle.claims.specs.Rows.{IsClaim};
ghost use Rattle.formulas.specs.declared.name.Name.{Name};
ghost use Rattle.formulas.specs.declared.formula.Formula.{Formula};
ghost use Rattle.formula_claims.specs.Claimed.{Claimed};
ghost use Rattle.workspace.specs.Floor.{Room};
ghost use Rattle.solve.specs.Telling.{Tells};

use first_word::first_word::{Found, first_word};
use std::alloc::{AllocError, Global};

/// What is found of the claim that the bytes are, said of every formula whose claim they are. Fails for memory alone.
pub fn first_row(alloc: Global, claim: &[u8], n: u32) -> Result<Found, AllocError>
    requires claim { IsClaim claim.now }
    requires fits { Room claim.now n }
    ensures { IfOk result (λ found. (l : List Name) (a : Formula) → Claimed l a claim.now → Tells l a n found) }
{
    let found = first_word(alloc, claim, n)?;
    Ok(found)
}
