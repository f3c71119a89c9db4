// What is asked of the judge about a text: the claim under the assumptions, and its opposite under them.
ghost use Rattle.std.specs.Prelude.{◌≡◌, ◌<◌, ◌≤◌, length, ◌↔◌, IfOk, IfSome};
ghost use Rattle.std.proofs.Props.{props};
ghost use Rattle.formulas.specs.Meaning.{Env, Meaning};
ghost use Rattle.resolve.specs.Says.{either};
ghost use Rattle.resolve.specs.Asks.{all_hold};
ghost use Rattle.solve.specs.Questions.{Puts, HoldsOf, FailsOf, names_of, others_of};

use crate::row::{in_row_if, push_others, push_row};
use crate::stop::Stop;
use formula_claims::claimed::claim_bytes;
use formulas::formula::Formula;
use resolve::asked::{Asked, Stated, ask};
use resolve::built::{and, negation};
use std::alloc::{AllocError, Global};
use trees::tree::Item;

/// The bytes of two claims, each at most 1,024: that the assumptions are met and the claim holds, and that they are met and it does not.
#[derive(Drop)]
pub struct Question {
    pub holds: Vec<u8>,
    pub fails: Vec<u8>,
    /// where the text speaks of a row or a ring, how many places and sets it declares: the row or the ring is the set behind them
    pub others: Option<usize>,
    pub ghost holds_short: { length holds.items ≤ 1024 },
    pub ghost fails_short: { length fails.items ≤ 1024 },
    pub ghost few: { IfSome others (λ k. k < 12) } by { Prim.hlevel props },
}

// Formulas joined by *and*; of none it is *true*.
fn joined(alloc: Global, all: Vec<Stated<'_>>) -> Result<Box<Formula>, AllocError>
    ensures { IfOk result (λ f. (e : Env) → Meaning f.value e ↔ all_hold all.entry.items e) }
{
    let mut front = all;
    let Some(last) = front.pop() else {
        return Ok(Box::new(alloc, Formula::True)?);
    };
    if front.is_empty() {
        return Ok(last.formula);
    }
    let whole = joined(alloc, front)?;
    and(alloc, whole, last.formula)
}

// That the assumptions hold, and the claims, or not the claims.
fn posed(alloc: Global, asked: Asked<'_>, opposite: bool) -> Result<Box<Formula>, AllocError>
    ensures { IfOk result (λ f. (e : Env) → Meaning f.value e ↔ (all_hold asked.entry.assumed.items e × either opposite (all_hold asked.entry.claimed.items e → ⊥) (all_hold asked.entry.claimed.items e))) }
{
    let Asked {
        free: _,
        assumed,
        claimed,
    } = asked;
    let assumes = !assumed.is_empty();
    let claimed = joined(alloc, claimed)?;
    let said = if opposite {
        negation(alloc, claimed)?
    } else {
        claimed
    };
    if !assumes {
        return Ok(said);
    }
    let assumed = joined(alloc, assumed)?;
    and(alloc, assumed, said)
}

// The bytes of the claim, or of its opposite, under the assumptions; and where a row or a ring is spoken of, how many places and sets are declared besides.
fn bytes(alloc: Global, items: &[Item], opposite: bool) -> Result<(Vec<u8>, Option<usize>), Stop>
    ensures short { IfOk result (λ b. length b.0.items ≤ 1024) }
    ensures puts { IfOk result (λ b. Puts (names_of items.now) (λ e. either opposite (FailsOf items.now e) (HoldsOf items.now e)) b.0.items) }
    ensures others { IfOk result (λ b. b.1 ≡ others_of items.now) }
    ensures few { IfOk result (λ b. IfSome b.1 (λ k. k < 12)) }
{
    let asked = ask(alloc, items)?;
    let mut names = Vec::new(alloc);
    let row = push_others(&mut names, &asked.free, 0)?;
    let others = names.len();
    let formula = posed(alloc, asked, opposite)?;
    let formula = in_row_if(alloc, row, &names, formula)?;
    push_row(&mut names, row)?;
    let bytes = claim_bytes(alloc, &formula, &names)?;
    Ok((bytes, row.map(|_| others)))
}

/// What is asked about a text. Fails where it says nothing, where its claim takes too many bytes or sets, and for memory.
pub fn question_of(alloc: Global, items: &[Item]) -> Result<Question, Stop>
    ensures holds { IfOk result (λ q. Puts (names_of items.now) (HoldsOf items.now) q.holds.items) }
    ensures fails { IfOk result (λ q. Puts (names_of items.now) (FailsOf items.now) q.fails.items) }
    ensures others { IfOk result (λ q. q.others ≡ others_of items.now) }
{
    let (holds, others) = bytes(alloc, items, false)?;
    let (fails, _) = bytes(alloc, items, true)?;
    Ok(Question {
        holds,
        fails,
        others,
    })
}
