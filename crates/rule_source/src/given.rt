// Given rows: the columns of their modules, and where they stand.
ghost use Rattle.std.specs.Prelude.{◌≡◌, ℕ, ◌==◌, ◌||◌, IfOk};
ghost use Rattle.std.specs.List.{AllZip, list_any};
ghost use Rattle.words.specs.Words.{bit};
ghost use Rattle.rule_source.specs.Given.{IsModule, IsRow};
ghost use Rattle.rule_source.specs.Patterns.{number};

use crate::bits::Bits;
use crate::fault::Fault;
use rule_file::token::Token;
use rule_file::tree::{Joined, Module};
use std::alloc::Global;
use trees::position::Span;
use words::bits::{Set, has_bit, with_bit};

/// A given row, a column for each module, and where it stands in the file.
#[derive(Debug, Drop)]
pub struct Given {
    pub columns: Vec<u32>,
    pub span: Span,
}

// The column of a module with that bit more. Fails where it has the bit already.
fn with_name(bits: &Bits<'_>, column: u32, name: Token) -> Result<u32, Fault>
    ensures { IfOk result (λ a. (j : ℕ) → bit j a ≡ bit j column || (number bits.now name == j)) }
{
    let j = Set(bits.number(name)?);
    if has_bit(column, j) {
        return Err(Fault::TwiceInModule(name));
    }
    Ok(with_bit(column, j))
}

// The column with the bits of a module behind its first.
fn with_names(bits: &Bits<'_>, column: u32, more: &[Joined]) -> Result<u32, Fault>
    ensures { IfOk result (λ a. (j : ℕ) → bit j a ≡ bit j column || list_any (λ m. number bits.now m.name == j) more.now) }
{
    let mut column = column;
    for joined in more {
        column = with_name(bits, column, joined.name)?;
    }
    Ok(column)
}

// The column of a module.
fn column_of(bits: &Bits<'_>, names: &Module) -> Result<u32, Fault>
    ensures { IfOk result (IsModule bits.now names.now) }
{
    match names {
        Module::Bare(_) => Ok(0),
        Module::Bits(name, more) => with_names(bits, with_name(bits, 0, *name)?, more),
    }
}

fn module_span(module: &Module) -> Span {
    match module {
        Module::Bare(point) => point.span,
        Module::Bits(name, more) => match more.last() {
            Some(joined) => name.span.to(joined.name.span),
            None => name.span,
        },
    }
}

fn columns_of(alloc: Global, bits: &Bits<'_>, modules: &[Module]) -> Result<Vec<u32>, Fault>
    ensures { IfOk result (λ v. AllZip (IsModule bits.now) modules.now v.items) }
{
    let mut columns = Vec::new(alloc);
    for names in modules {
        columns.push(column_of(bits, names)?)?;
    }
    Ok(columns)
}

/// A given row, from its first word to its last module. Fails where a name is no bit's, where a module names a bit twice, and for memory.
pub fn row_of(
    alloc: Global,
    bits: &Bits<'_>,
    heading: Span,
    modules: &[Module],
) -> Result<Given, Fault>
    ensures { IfOk result (IsRow bits.now modules.now) }
{
    let columns = columns_of(alloc, bits, modules)?;
    let last = modules.last().map(module_span).unwrap_or(heading);
    Ok(Given {
        columns,
        span: heading.to(last),
    })
}
