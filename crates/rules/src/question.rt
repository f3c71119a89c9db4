// What is asked of a rule: a property that names only what the rule has.
ghost use Rattle.std.specs.Prelude.{◌≡◌, MatchResult};
ghost use Rattle.rules.specs.Property.{IsOf, Unasked};

use crate::known::Unsound;
use crate::property::Property;
use crate::rule::Rule;
use std::alloc::Global;

/// A property of the rows of a rule, which names only bits and sets that the rule has.
#[derive(Drop)]
pub struct Question<'r> {
    pub rule: &'r Rule,
    pub property: Property,
    pub ghost of: { IsOf rule.now property },
}

impl<'r> Question<'r> {
    /// The question of the rows of the rule that have the property. Fails where the property names a bit or a set that the rule has not, and for memory.
    pub fn new(alloc: Global, rule: &'r Rule, property: Property) -> Result<Question<'r>, Unsound>
        ensures { MatchResult result (λ q. (q.rule.now ≡ rule.now) × (q.property ≡ property)) (Unasked rule.now property) }
    {
        match &property {
            Property::Allowed | Property::Stuck | Property::Left => {}
            Property::Met(pattern) => {
                if !rule.has_bits_of(pattern.literals()) {
                    return Err(Unsound::UnknownBit);
                }
            }
            Property::Fails(formula) => {
                if !rule.has_names_of(alloc, formula)? {
                    return Err(Unsound::UnknownName);
                }
            }
        }
        Ok(Question { rule, property })
    }
}
