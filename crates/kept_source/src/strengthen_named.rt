// With which of a rule file's list of helpers what it claims to be kept is, by the claim's name.
ghost use Rattle.std.specs.Prelude.{IfOk};
ghost use Rattle.kept_source.specs.Strengthened.{OfSource, Strengthened};

use crate::helped::Helped;
use crate::judge_named::{called, is_memory};
use crate::read::read;
use rule_check::memory::Memory;
use rule_source::fault::Fault;
use rule_source::kept::keeps_of;
use rule_source::source::Source;
use std::alloc::{AllocError, Global};
use strengthen::listed::Listed;
use strengthen::strengthen::strengthen;
use strengthen::watch::Unwatched;

// What is answered of a file that was read, and a name.
fn strengthen_in<'s, 't: 's>(
    alloc: Global,
    source: &'s Source<'t>,
    name: &str,
    memory: Memory,
) -> Result<Helped, Fault>
    ensures { IfOk result (OfSource source.now name.now memory) }
{
    let keeps = keeps_of(alloc, source)?;
    let Some(keep) = called(&keeps, name) else {
        return Ok(Helped::NoSuchClaim);
    };
    let listed = Listed::new(alloc, &keep.keeping, &source.helpers)?;
    let answer = strengthen(alloc, listed, memory, &mut Unwatched)?;
    Ok(Helped::Answered(answer))
}

// What is answered of a text and a name.
fn strengthen_text(alloc: Global, text: &str, name: &str, memory: Memory) -> Result<Helped, Fault>
    ensures { IfOk result (Strengthened text.now name.now memory) }
{
    let source = read(alloc, text)?;
    strengthen_in(alloc, &source, name, memory)
}

/// With which of the rule file's list of helpers what it claims to be kept under that name is kept, judged in that memory. `NotRead` is given where the file, or something that it
/// claims to be kept, is at fault, and nothing is promised of it but that. It fails for want of memory alone.
pub fn strengthen_named(
    alloc: Global,
    text: &str,
    name: &str,
    memory: Memory,
) -> Result<Helped, AllocError>
    ensures { IfOk result (Strengthened text.now name.now memory) }
{
    match strengthen_text(alloc, text, name, memory) {
        Ok(answer) => Ok(answer),
        Err(fault) => {
            if is_memory(&fault) {
                return Err(AllocError);
            }
            Ok(Helped::NotRead)
        }
    }
}
