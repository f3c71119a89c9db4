// The call on what a step keeps, for other languages: numbers and slices cross, an answer is six numbers, and the rows of an answer are written.
ghost use Rattle.std.specs.Prelude.{◌≡◌, length};
ghost use Rattle.export.specs.KeptVerdict.{AreAsLong, Exported, IsAsLong, answer_columns, answer_numbers, breach_columns, breach_numbers, columns, count, has_room, moment_number, numbers, plain, reason, too_large};

use crate::kept_outcome::{KeptOutcome, kept_outcome};
use keeping::moment::Moment;
use kept_check::answer::{Answer, Breach, Large, TooLarge};
use kept_source::in_file::InFile;
use std::alloc::Global;

// Which answer: 0 kept, 1 not kept, 2 too large, 3 no rule file, 4 no such claim, 5 out full, 6 no memory, 7 few words. The moment: 0 at the start, 1 in a step, for 1 and 2. For 2 the number of
// the part, the reason, 0 classes, 1 bytes, 2 sets, and how many of these. For 1 and 5 how many modules each of the two rows has. Else 0.
#[repr(C)]
#[derive(Clone, Copy)]
pub struct KeptNumbers {
    pub tag: u32,
    pub moment: u32,
    pub part: u32,
    pub reason: u32,
    pub number: u64,
    pub length: usize,
}

// The numbers of an answer that says no more than which it is.
fn plain(tag: u32) -> KeptNumbers
    ensures { result ≡ plain tag }
{
    KeptNumbers {
        tag,
        moment: 0,
        part: 0,
        reason: 0,
        number: 0,
        length: 0,
    }
}

// The moment: 0 at the start, 1 in a step.
pub fn moment_number(moment: Moment) -> u32
    ensures { result ≡ moment_number moment }
{
    match moment {
        Moment::Start => 0,
        Moment::Step => 1,
    }
}

// In what a claim is too large, and how many of these there are.
pub fn reason(why: Large) -> (u32, u64)
    ensures reason { result.0 ≡ reason why }
    ensures number { result.1 ≡ count why }
{
    match why {
        Large::Classes(n) => (0, u64::from(n)),
        Large::Bytes(n) => (1, n as u64),
        Large::Sets(n) => (2, n as u64),
    }
}

fn too_large(large: TooLarge) -> KeptNumbers
    ensures { result ≡ too_large large }
{
    let (reason, number) = reason(large.why);
    KeptNumbers {
        tag: 2,
        moment: moment_number(large.moment),
        part: large.part.min(u32::MAX as usize) as u32,
        reason,
        number,
        length: 0,
    }
}

// Writes the row, and behind it the row after, where there is room for both.
fn put_breach(breach: &Breach, out: &mut [u32]) -> KeptNumbers
    requires { length breach.now.after.items ≡ length breach.now.row.items }
    ensures numbers { result ≡ breach_numbers breach.now (has_room breach.now out.old) }
    ensures columns { out.new ≡ breach_columns breach.now out.old (has_room breach.now out.old) }
{
    let length = breach.row.len();
    if length > out.len() / 2 {
        return KeptNumbers { length, ..plain(5) };
    }
    out[..length].copy_from_slice(&breach.row);
    out[length..2 * length].copy_from_slice(&breach.after);
    KeptNumbers {
        moment: moment_number(breach.moment),
        length,
        ..plain(1)
    }
}

// The numbers of an answer, whose rows are written.
fn put_answer(answer: &Answer, out: &mut [u32]) -> KeptNumbers
    requires { IsAsLong answer.now }
    ensures numbers { result ≡ answer_numbers answer.now out.old }
    ensures columns { out.new ≡ answer_columns answer.now out.old }
{
    match answer {
        Answer::Kept => plain(0),
        Answer::NotKept(breach) => put_breach(breach, out),
        Answer::TooLarge(large) => too_large(*large),
    }
}

fn put(outcome: &KeptOutcome, out: &mut [u32]) -> KeptNumbers
    requires { AreAsLong outcome.now }
    ensures numbers { result ≡ numbers outcome.now out.old }
    ensures columns { out.new ≡ columns outcome.now out.old }
{
    match outcome {
        KeptOutcome::InFile(InFile::Judged(answer)) => put_answer(answer, out),
        KeptOutcome::InFile(InFile::NotRead) => plain(3),
        KeptOutcome::InFile(InFile::NoSuchClaim) => plain(4),
        KeptOutcome::NoMemory => plain(6),
        KeptOutcome::TooFewWords => plain(7),
    }
}

// The call. A slice crosses as a pointer and a length, and the allocator as nothing.
#[unsafe(no_mangle)]
pub extern "C" fn ceivuron_judge_kept(
    alloc: Global,
    text: &[u8],
    name: &[u8],
    most: u32,
    words: u64,
    out: &mut [u32],
) -> KeptNumbers
    ensures { Exported text.now name.now most words out.old out.new result }
{
    put(&kept_outcome(alloc, text, name, most, words), out)
}
