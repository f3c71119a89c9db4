// The bits of the row after that a claim needs.
ghost use Rattle.std.specs.Prelude.{◌≡◌, IfOk, IsTrue};
ghost use Rattle.rules.specs.Changed.{is_bit, asks, some_asks, has_group, changed, changed_named, named_after};

use crate::known::{all_names, is_unchanged};
use crate::rule::Rule;
use formulas::formula::Formula;
use formulas::free::free_names;
use formulas::name::Name;
use rows::line::{Line, Pattern};
use rows::rule::{Asked, Literal};
use std::alloc::{AllocError, Global};

fn is_bit(asked: Asked, j: u8) -> bool
    ensures { result ≡ is_bit asked j }
{
    match asked {
        Asked::There => false,
        Asked::Bit(i) => i == j,
    }
}

fn asks(ps: &[Literal], j: u8) -> bool
    ensures { result ≡ asks ps.now j }
{
    let [p, rest @ ..] = ps else {
        return false;
    };
    is_bit(p.asked, j) || asks(rest, j)
}

fn some_asks(patterns: &[Pattern], j: u8) -> bool
    ensures { result ≡ some_asks patterns.now j }
{
    let [p, rest @ ..] = patterns else {
        return false;
    };
    asks(p.literals(), j) || some_asks(rest, j)
}

fn has_group(names: &[Name], x: u32) -> bool
    ensures { result ≡ has_group names.now x }
{
    let [name, rest @ ..] = names else {
        return false;
    };
    *name == Name::OfGroup(x) || has_group(rest, x)
}

/// The bits of modules of so many bits that the patterns or the names ask for and that some line of the table changes, rising.
pub fn changed_named(
    alloc: Global,
    bits: u8,
    patterns: &[Pattern],
    names: &[Name],
    table: &[Line],
) -> Result<Vec<u8>, AllocError>
    ensures { IfOk result (λ js. js.items ≡ changed_named bits patterns.now names.now table.now) }
{
    let mut found = Vec::new(alloc);
    for j in 0..bits {
        let asked = some_asks(patterns, j) || has_group(names, j as u32);
        if asked && !is_unchanged(table, j) {
            found.push(j)?;
        }
    }
    Ok(found)
}

/// The bits that the rule's patterns or its limits ask for and that some line of its table changes, rising.
pub fn changed_bits(alloc: Global, rule: &Rule) -> Result<Vec<u8>, AllocError>
    ensures { IfOk result (λ js. js.items ≡ changed rule.now.bits rule.now.allowed.items rule.now.limits.items rule.now.table.items) }
{
    let names = all_names(alloc, &rule.limits)?;
    changed_named(alloc, rule.bits, &rule.allowed, &names, &rule.table)
}

/// The bits of the row after that the formula names, rising: bit j is the set with the number `bits + 1 + j`.
pub fn named_bits(alloc: Global, bits: u8, formula: &Formula) -> Result<Vec<u8>, AllocError>
    ensures { IfOk result (λ js. js.items ≡ named_after bits formula.now) }
{
    let names = free_names(alloc, formula)?;
    let mut found = Vec::new(alloc);
    for j in 0..bits {
        if has_group(&names, bits as u32 + 1 + j as u32) {
            found.push(j)?;
        }
    }
    Ok(found)
}
