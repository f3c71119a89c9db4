// The parts of a claim.
ghost use Rattle.std.specs.Prelude.{◌≡◌, ◌++◌, OnOk, map};
ghost use Rattle.kept_check.specs.Parts.{parts};

use formulas::formula::Formula;
use std::alloc::AllocError;

/// Puts the formulas behind those that are there of which the formula says that all hold: of `and` those of both its sides, of others itself.
pub fn put_parts<'f>(found: &mut Vec<&'f Formula>, formula: &'f Formula) -> Result<(), AllocError>
    ensures { OnOk result (map (λ d. d.now) found.new.items ≡ map (λ d. d.now) found.old.items ++ parts formula.now) }
{
    match formula {
        Formula::And(a, b) => {
            put_parts(found, a)?;
            put_parts(found, b)?;
        }
        _ => found.push(formula)?,
    }
    Ok(())
}
