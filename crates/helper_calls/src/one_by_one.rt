// All choices in their order, each judged by itself: nothing is passed over.
ghost use Rattle.std.specs.Prelude.{◌≡◌, true};
ghost use Rattle.strengthen.specs.Listed.{Below};

use anyhow::bail;
use kept_check::answer::Answer;
use kept_check::judge_kept::judge_kept;
use kept_check::part::Asked;
use kept_check::parts::put_parts;
use rule_check::memory::Memory;
use std::alloc::Global;
use strengthen::before::choices_before;
use strengthen::choice::keeping_with;
use strengthen::listed::Listed;

/// The first choice that is kept, if there is one, and how many were judged until then, and how many claims for that: two for each part.
#[derive(Drop)]
pub struct Met {
    pub choice: Option<Vec<usize>>,
    pub choices: u64,
    pub judged: u64,
}

// Whether all numbers are of a list of n.
fn are_below(n: usize, choice: &[usize]) -> bool
    ensures { result ≡ true → Below n choice.now }
{
    let [i, rest @ ..] = choice else {
        return true;
    };
    *i < n && are_below(n, rest)
}

// Whether the claim is kept with the choice, and how many claims that takes.
fn judged(
    alloc: Global,
    given: Listed<'_, '_>,
    memory: Memory,
    choice: &[usize],
) -> anyhow::Result<(bool, u64)> {
    if !are_below(given.helpers.len(), choice) {
        bail!("a choice of another list");
    }
    let keeping = keeping_with(alloc, given, choice)?;
    let mut parts = Vec::new(alloc);
    put_parts(&mut parts, &keeping.claim)?;
    let claims = (parts.len() as u64).saturating_mul(2);
    let asked = Asked {
        keeping: &keeping,
        memory,
    };
    match judge_kept(alloc, asked)? {
        Answer::Kept => Ok((true, claims)),
        Answer::NotKept(_) => Ok((false, claims)),
        Answer::TooLarge(_) => bail!("too large"),
    }
}

/// Goes through all choices, the empty one first.
pub fn one_by_one(alloc: Global, given: Listed<'_, '_>, memory: Memory) -> anyhow::Result<Met> {
    let mut met = Met {
        choice: None,
        choices: 0,
        judged: 0,
    };
    let mut all = Vec::new(alloc);
    all.push(Vec::new(alloc))?;
    let mut others = choices_before(alloc, given.helpers.len(), None)?;
    all.append(&mut others)?;
    for choice in all {
        let (is_kept, claims) = judged(alloc, given, memory, &choice)?;
        met.choices = met.choices.saturating_add(1);
        met.judged = met.judged.saturating_add(claims);
        if is_kept {
            met.choice = Some(choice);
            return Ok(met);
        }
    }
    Ok(met)
}
