// What is claimed to be kept by the steps of a rule.
ghost use Rattle.std.specs.Prelude.{◌≡◌, MatchResult, IsTrue};
ghost use Rattle.rows.specs.Faults.{limits_ok};
ghost use Rattle.keeping.specs.Breaches.{names_ok};
ghost use Rattle.kept_claims.specs.Kept.{Unkept};

use formulas::formula::Formula;
use formulas::free::free_names;
use rules::known::{Unsound, all_names, are_groups};
use rules::rule::Rule;
use std::alloc::Global;

/// The claim that a formula is kept by the steps of a rule: it holds of each row of which all formulas of the start hold, and of the row after each row of which it holds.
/// The formulas name sets of the row alone: below the number of bits the places whose module has that bit, and that number itself the row's places.
#[derive(Drop)]
pub struct Keeping<'r> {
    pub rule: &'r Rule,
    pub start: &'r [Formula],
    pub claim: Box<Formula>,
    pub ghost starts: { IsTrue (limits_ok rule.now.bits start.now) },
    pub ghost names: { IsTrue (names_ok rule.now.bits claim.value) },
}

impl<'r> Keeping<'r> {
    /// The claim that this formula is kept, from this start on. Fails where a formula names what is no set of the row, and for memory.
    pub fn new(
        alloc: Global,
        rule: &'r Rule,
        start: &'r [Formula],
        claim: Box<Formula>,
    ) -> Result<Keeping<'r>, Unsound>
        ensures { MatchResult result (λ k. (k.rule.now ≡ rule.now) × (k.start.now ≡ start.now) × (k.claim ≡ claim)) (Unkept rule.now.bits start.now claim.value) }
    {
        let sets = rule.bits as u32 + 1;
        let of_start = all_names(alloc, start)?;
        let of_claim = free_names(alloc, &claim)?;
        if !are_groups(sets, &of_start) || !are_groups(sets, &of_claim) {
            return Err(Unsound::UnknownName);
        }
        Ok(Keeping { rule, start, claim })
    }
}
