// Whether what a rule file claims to be kept is, by the claim's name.
ghost use Rattle.std.specs.Prelude.{◌≡◌, ◌≢◌, All, Contains, IfNone, IfOk, IfSome};
ghost use Rattle.kept_source.specs.Faults.{is_memory};
ghost use Rattle.kept_source.specs.Named.{Named, OfSource};

use crate::in_file::InFile;
use crate::read::read;
use kept_check::judge_kept::judge_kept;
use kept_check::part::Asked;
use rule_check::memory::Memory;
use rule_source::fault::Fault;
use rule_source::kept::{Keep, keeps_of};
use rule_source::source::Source;
use rules::known::Unsound;
use std::alloc::{AllocError, Global};

/// The first of them with that name.
pub fn called<'k, 's>(keeps: &'k [Keep<'s>], name: &str) -> Option<&'k Keep<'s>>
    ensures named { IfSome result (λ k. k.now.name.now ≡ name.now) }
    ensures found { IfSome result (λ k. Contains keeps.now k.now) }
    ensures none { IfNone result (All (λ k. k.name.now ≢ name.now) keeps.now) }
{
    keeps.iter().find(|keep| keep.name == name)
}

// What is answered of a file that was read, and a name.
fn judge_in<'s, 't: 's>(
    alloc: Global,
    source: &'s Source<'t>,
    name: &str,
    memory: Memory,
) -> Result<InFile, Fault>
    ensures { IfOk result (OfSource source.now name.now memory) }
{
    let keeps = keeps_of(alloc, source)?;
    let Some(keep) = called(&keeps, name) else {
        return Ok(InFile::NoSuchClaim);
    };
    let asked = Asked {
        keeping: &keep.keeping,
        memory,
    };
    Ok(InFile::Judged(judge_kept(alloc, asked)?))
}

// What is answered of a text and a name.
fn judge_text(alloc: Global, text: &str, name: &str, memory: Memory) -> Result<InFile, Fault>
    ensures { IfOk result (Named text.now name.now memory) }
{
    let source = read(alloc, text)?;
    judge_in(alloc, &source, name, memory)
}

/// Whether a fault is that there is not enough memory. Among the faults of a formula it is the one that stands nowhere in the file.
pub fn is_memory(fault: &Fault) -> bool
    ensures { result ≡ is_memory fault.now }
{
    match fault {
        Fault::Memory
        | Fault::Form(rule_file::fault::Fault::OutOfMemory)
        | Fault::Unsound(Unsound::OutOfMemory)
        | Fault::Formula(_, None) => true,
        _ => false,
    }
}

/// Whether what the rule file claims to be kept under that name is kept, judged in that memory. `NotRead` is given where the file, or something that it claims to be kept, is at
/// fault, and nothing is promised of it but that. It fails for want of memory alone.
pub fn judge_named(
    alloc: Global,
    text: &str,
    name: &str,
    memory: Memory,
) -> Result<InFile, AllocError>
    ensures { IfOk result (Named text.now name.now memory) }
{
    match judge_text(alloc, text, name, memory) {
        Ok(answer) => Ok(answer),
        Err(fault) => {
            if is_memory(&fault) {
                return Err(AllocError);
            }
            Ok(InFile::NotRead)
        }
    }
}
