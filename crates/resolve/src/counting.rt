// The places of a set counted, as a formula.
ghost use Rattle.std.specs.Prelude.{◌≡◌, ℕ, ◌+◌, ◌*◌, ◌⊎◌, ◌↔◌, IfOk, IfErr};
ghost use Rattle.formulas.specs.Sets.{how_many};
ghost use Rattle.formulas.specs.Meaning.{Env, Meaning};
ghost use Rattle.resolve.specs.Says.{value, set_of};
ghost use Rattle.resolve.specs.Scopes.{context, signature};
ghost use Rattle.resolve.specs.Faults.{Faulty, IsLimit, Miscounted};
ghost use Rattle.resolve.specs.declared.fault.Class.{Class};

use crate::built::count;
use crate::fault::Fault;
use crate::scope::Scope;
use crate::terms::Resolver;
use formulas::formula::Formula;
use kinds::multiple::Remainder;
use trees::tree::{Expr, Spanned};

// The numbers of a count: the first from 2 to 16, the second below it.
fn remainder(modulus: &Spanned<u32>, rest: &Spanned<u32>) -> Result<Remainder, Fault>
    ensures modulus { IfOk result (λ r. r.modulus ≡ modulus.now.kind) }
    ensures rest { IfOk result (λ r. r.rest ≡ rest.now.kind) }
    ensures faults { IfErr result (λ f. Miscounted modulus.now rest.now f) }
{
    let by = modulus.kind;
    let besides = rest.kind;
    if by < 2 || 16 < by {
        return Err(Fault::Modulus(modulus.span));
    }
    if by <= besides {
        return Err(Fault::Rest(by, rest.span));
    }
    Ok(Remainder {
        modulus: by as u8,
        rest: besides as u8,
    })
}

impl Resolver {
    /// How many places a set has.
    ///
    /// # Errors
    /// A limit; that the numbers are not such; or a fault that the set has where one is wanted.
    pub fn counted(
        &mut self,
        set: &Expr,
        modulus: &Spanned<u32>,
        rest: &Spanned<u32>,
        scope: &Scope<'_>,
        calls: u32,
    ) -> Result<Box<Formula>, Fault>
        ensures says { IfOk result (λ f. (e : Env) → Meaning f.value e ↔ ((t : ℕ) × (how_many (set_of (value set.now.kind (context scope.now e))) ≡ t * modulus.now.kind + rest.now.kind))) }
        ensures faults { IfErr result (λ f. IsLimit f ⊎ (Miscounted modulus.now rest.now f ⊎ Faulty (signature scope.now) Class.Set set.now f)) }
    {
        let remainder = remainder(modulus, rest)?;
        let places = self.group(set, scope, calls)?;
        Ok(count(self.heap, places, remainder)?)
    }
}
