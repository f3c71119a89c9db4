// What a rule file claims to be kept: `kept NAME: FORMULA`, that the formula holds of every row of which the formulas of all lines `start:` hold, and of the
// row after every row of which it holds.
ghost use Rattle.std.specs.Prelude.{◌≡◌, ◌++◌, [], All, IfOk, OnOk, map, Some};
ghost use Rattle.std.specs.List.{cons_option};
ghost use Rattle.rule_file.specs.Claims.{claim_name};
ghost use Rattle.rule_source.specs.Kept.{Keeps, kept_in, kept_of, keeping};

use crate::bits::word;
use crate::fault::Fault;
use crate::formula::{About, formula_of};
use crate::source::Source;
use kept_claims::kept::Keeping;
use rule_file::token::Token;
use rule_file::tree::Statement;
use std::alloc::Global;

/// What is claimed to be kept: its name, its statement, and what is to be kept from where on.
#[derive(Drop)]
pub struct Keep<'s> {
    pub name: &'s str,
    pub statement: &'s Statement,
    pub keeping: Keeping<'s>,
}

// What a statement with that name and that formula claims to be kept. Fails where the file does not say how a run may begin.
fn keep_of<'s, 't: 's>(
    alloc: Global,
    source: &'s Source<'t>,
    statement: &'s Statement,
    name: Token,
    formula: Token,
) -> Result<Keep<'s>, Fault>
    requires name { claim_name statement.now ≡ Some name }
    requires formula { kept_of statement.now ≡ Some formula }
    ensures statement { IfOk result (λ k. k.statement.now ≡ statement.now) }
    ensures keeps { IfOk result (λ k. Keeps source.now k) }
{
    if source.starts.is_empty() {
        return Err(Fault::NoStart(name));
    }
    let name = word(source.bits.text, name)?;
    let claim = formula_of(alloc, &source.bits, About::Row, formula)?;
    let keeping = Keeping::new(alloc, &source.rule, &source.starts, claim)?;
    Ok(Keep {
        name,
        statement,
        keeping,
    })
}

// What a statement claims to be kept, if it does, behind what is there.
fn push_keep<'s, 't: 's>(
    alloc: Global,
    source: &'s Source<'t>,
    statement: &'s Statement,
    keeps: &mut Vec<Keep<'s>>,
) -> Result<(), Fault>
    ensures all { OnOk result (map (λ k. k.statement.now) keeps.new.items ≡ map (λ k. k.statement.now) keeps.old.items ++ cons_option (keeping statement.now) []) }
    ensures each { OnOk result (All (Keeps source.now) keeps.old.items → All (Keeps source.now) keeps.new.items) }
{
    match statement {
        Statement::Kept(named, formula) => {
            keeps.push(keep_of(alloc, source, statement, named.name, *formula)?)?;
            Ok(())
        }
        _ => Ok(()),
    }
}

/// What a file claims to be kept, in the order of the file. Fails at the first thing that is wrong in it, where the file does not say how a run may begin, and
/// for memory.
pub fn keeps_of<'s, 't: 's>(alloc: Global, source: &'s Source<'t>) -> Result<Vec<Keep<'s>>, Fault>
    ensures all { IfOk result (λ keeps. map (λ k. k.statement.now) keeps.items ≡ kept_in source.now.file.lines.items) }
    ensures each { IfOk result (λ keeps. All (Keeps source.now) keeps.items) }
{
    let mut keeps = Vec::new(alloc);
    for line in &source.file.lines {
        push_keep(alloc, source, &line.statement, &mut keeps)?;
    }
    Ok(keeps)
}
