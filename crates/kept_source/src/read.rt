// A rule file, read.
ghost use Rattle.std.specs.Prelude.{IfOk};
ghost use Rattle.rule_source.specs.Reading.{IsRead};

use rule_source::fault::Fault;
use rule_source::source::{Source, source_of};
use std::alloc::Global;

/// What the text of a rule file is read as. Fails at the first thing that is wrong in it, and for memory.
pub fn read(alloc: Global, text: &str) -> Result<Source<'_>, Fault>
    ensures { IfOk result (IsRead text.now) }
{
    let source = source_of(alloc, text)?;
    Ok(source)
}
