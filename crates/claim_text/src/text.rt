// A claim as a whole text.
use crate::expr::of_formula;
use crate::known::{Known, check_names};
use crate::layout::put;
use crate::refusal::Refusal;
use claim_formula::formula::formula_of;
use claims::tree::Claim;
use formulas::formula::Formula;
use formulas::free::free_names;
use formulas::name::Name;
use std::alloc::{AllocError, Global};

// How many sets there are up to the last that is free in a formula.
fn free_sets(alloc: Global, formula: &Formula) -> Result<usize, AllocError> {
    let mut count = 0;
    for name in &free_names(alloc, formula)? {
        match name {
            Name::OfGroup(x) | Name::OfPlace(x) => count = count.max(
                (*x as usize).saturating_add(1),
            ),
        }
    }
    Ok(count)
}

fn put_declared(out: &mut String, words: &[&str]) -> Result<(), AllocError> {
    for (i, word) in words.iter().enumerate() {
        out.push_str(if i == 0 { "var2 " } else { ", " })?;
        out.push_str(*word)?;
    }
    if words.is_empty() {
        Ok(())
    } else {
        out.push_str(";\n")
    }
}

/// The claim as a text that `settle` reads, and MONA where nothing is counted: what it declares, in order of their
/// numbers, are the sets up to the last that is free in the claim, called by the names, and one formula. An error where
/// names are none of the readable form or the same, where a free set has none, and for memory.
pub fn text(alloc: Global, claim: &Claim, names: &[&str]) -> Result<String, Refusal> {
    check_names(alloc, names)?;
    let formula = formula_of(alloc, claim)?;
    let count = free_sets(alloc, &formula)?;
    let expr = of_formula(alloc, &formula, &Known::Free(names))?;
    let mut out = String::from_str(alloc, "ws1s;\n")?;
    put_declared(&mut out, &names[..count.min(names.len())])?;
    put(&mut out, &expr, 0)?;
    out.push_str(";\n")?;
    Ok(out)
}
