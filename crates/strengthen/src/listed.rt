// A claim, and the list of those that may help to keep it.
ghost use Rattle.std.specs.Prelude.{◌≡◌, ◌≤◌, suc, length, MatchResult, IsTrue};
ghost use Rattle.rows.specs.Faults.{limits_ok};

use formulas::formula::Formula;
use kept_claims::kept::Keeping;
use rules::known::{Unsound, all_names, are_groups};
use std::alloc::Global;

/// What is to be kept, and a list of formulas of which some may help. They name sets of the row alone, as the claim does.
#[derive(Clone, Copy)]
pub struct Listed<'k, 'r> {
    pub keeping: &'k Keeping<'r>,
    pub helpers: &'k [Formula],
    pub ghost names: { IsTrue (limits_ok keeping.now.rule.now.bits helpers.now) },
}

impl<'k, 'r> Listed<'k, 'r> {
    ghost use Rattle.strengthen.specs.Listed.{Unlisted, claim_at};

    /// The claim with this list. Fails where a formula names what is no set of the row, and for memory.
    pub fn new(
        alloc: Global,
        keeping: &'k Keeping<'r>,
        helpers: &'k [Formula],
    ) -> Result<Listed<'k, 'r>, Unsound>
        ensures { MatchResult result (λ g. (g.keeping.now ≡ keeping.now) × (g.helpers.now ≡ helpers.now)) (Unlisted keeping.now.rule.now.bits helpers.now) }
    {
        let names = all_names(alloc, helpers)?;
        if !are_groups(keeping.rule.bits as u32 + 1, &names) {
            return Err(Unsound::UnknownName);
        }
        Ok(Listed { keeping, helpers })
    }

    /// The claim with that number: 0 is the claim itself, and 1 the first of the list.
    pub fn claim(&self, j: usize) -> &'k Formula
        requires { j ≤ length self.now.helpers.now }
        ensures { result.now ≡ claim_at self.now j }
    {
        if j == 0 {
            return &self.keeping.claim;
        }
        &self.helpers[j - 1]
    }
}
