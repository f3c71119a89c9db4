// The call on the helpers with which a step keeps a claim, for other languages: numbers and slices cross, an answer is six numbers, and the numbers of the helpers are written.
ghost use Rattle.std.specs.Prelude.{◌≡◌, length, map};
ghost use Rattle.export.specs.StrongerVerdict.{Exported, answer_columns, answer_numbers, as_written, choice_columns, choice_numbers, columns, has_room, numbers, plain, too_large};

use crate::kept_verdict::{moment_number, reason};
use crate::stronger_outcome::{StrongerOutcome, stronger_outcome};
use kept_check::answer::TooLarge;
use kept_source::helped::Helped;
use std::alloc::Global;
use strengthen::answer::Stronger;

// Which answer: 0 kept with these helpers, 1 kept with no choice of them, 2 too large, 3 no rule file, 4 no such claim, 5 out full, 6 no memory, 7 few words. For 2 the moment, 0 at the start, 1 in
// a step, the number of the part, the reason, 0 classes, 1 bytes, 2 sets, and how many of these. For 0, 2 and 5 how many helpers the choice has, of which for 0 and 2 the numbers are written: the
// first of the file's list has number 0. Else 0.
#[repr(C)]
#[derive(Clone, Copy)]
pub struct StrongerNumbers {
    pub tag: u32,
    pub moment: u32,
    pub part: u32,
    pub reason: u32,
    pub number: u64,
    pub length: usize,
}

// The numbers of an answer that says no more than which it is.
fn plain(tag: u32) -> StrongerNumbers
    ensures { result ≡ plain tag }
{
    StrongerNumbers {
        tag,
        moment: 0,
        part: 0,
        reason: 0,
        number: 0,
        length: 0,
    }
}

// Those of a choice that is too large, but for how many helpers it has.
fn too_large(large: TooLarge) -> StrongerNumbers
    ensures { result ≡ too_large large }
{
    let (reason, number) = reason(large.why);
    StrongerNumbers {
        tag: 2,
        moment: moment_number(large.moment),
        part: large.part.min(u32::MAX as usize) as u32,
        reason,
        number,
        length: 0,
    }
}

// The numbers of a choice.
fn write_choice(choice: &[usize], out: &mut [u32])
    requires { length out.old ≡ length choice.now }
    ensures { out.new ≡ map as_written choice.now }
{
    for (i, helper) in choice.iter().enumerate() {
        out[i] = (*helper).min(u32::MAX as usize) as u32;
    }
}

// Writes the choice where there is room for it, and says this of it; what stands behind it stays.
fn put_choice(said: StrongerNumbers, choice: &[usize], out: &mut [u32]) -> StrongerNumbers
    ensures numbers { result ≡ choice_numbers said choice.now (has_room choice.now out.old) }
    ensures columns { out.new ≡ choice_columns choice.now out.old (has_room choice.now out.old) }
{
    let length = choice.len();
    if length > out.len() {
        return StrongerNumbers { length, ..plain(5) };
    }
    write_choice(choice, &mut out[..length]);
    StrongerNumbers { length, ..said }
}

// The numbers of an answer, whose choice is written.
fn put_answer(answer: &Stronger, out: &mut [u32]) -> StrongerNumbers
    ensures numbers { result ≡ answer_numbers answer.now out.old }
    ensures columns { out.new ≡ answer_columns answer.now out.old }
{
    match answer {
        Stronger::With(choice) => put_choice(plain(0), choice, out),
        Stronger::NoneAmong => plain(1),
        Stronger::TooLarge(large) => put_choice(too_large(large.large), &large.choice, out),
    }
}

fn put(outcome: &StrongerOutcome, out: &mut [u32]) -> StrongerNumbers
    ensures numbers { result ≡ numbers outcome.now out.old }
    ensures columns { out.new ≡ columns outcome.now out.old }
{
    match outcome {
        StrongerOutcome::InFile(Helped::Answered(answer)) => put_answer(answer, out),
        StrongerOutcome::InFile(Helped::NotRead) => plain(3),
        StrongerOutcome::InFile(Helped::NoSuchClaim) => plain(4),
        StrongerOutcome::NoMemory => plain(6),
        StrongerOutcome::TooFewWords => plain(7),
    }
}

// The call. A slice crosses as a pointer and a length, and the allocator as nothing.
#[unsafe(no_mangle)]
pub extern "C" fn ceivuron_strengthen(
    alloc: Global,
    text: &[u8],
    name: &[u8],
    most: u32,
    words: u64,
    out: &mut [u32],
) -> StrongerNumbers
    ensures { Exported text.now name.now most words out.old out.new result }
{
    put(&stronger_outcome(alloc, text, name, most, words), out)
}
