// Judges claims: reads lines `most hexbytes`, or `most hexbytes outwords`, from standard input, and writes one answer a line.
// `most` is the largest number of classes that may be told apart at a part, and `outwords` the number of words that the call gets for its two first words; without it there is room for any answer.
// A line that is not of that form gets a message with its number, one that would take more than 256 MiB of work memory says so, and the run goes on.
#![tactic(auto)]

ghost use Rattle.std.specs.Prelude.{Some};
ghost use Rattle.judge_lines.specs.Answers.{line_of};

use display::columns::Columns;
use lengths::judge::judge;
use lengths::judged::Judged;
use line_format::fault::Fault;
use line_format::line::{read_bytes, read_fields, read_number};
use std::alloc::Global;
use std::fmt;
use std::io::{BufRead, BufReader};
use workspace::floor::floor;

// The most work words that a line may take: 256 MiB.
const MOST_WORDS: u128 = 67108864;

// What a line asks.
#[derive(Drop)]
struct Question {
    most: u32,
    bytes: Vec<u8>,
    out: Option<u32>,
}

// An answer as it is printed. Of two first words the call has put the columns one behind the other into `out`.
#[derive(Clone, Copy)]
struct Answer<'a> {
    judged: Judged,
    out: &'a [u32],
}

impl fmt::Display for Answer<'_> {
    ghost output = { λ answer. Some (line_of answer.judged answer.out.now) };

    fn fmt<W: fmt::Write>(&self, f: &mut fmt::Formatter<W>) -> fmt::Result {
        match self.judged {
            Judged::Always => write!(f, "always"),
            Judged::Never => write!(f, "never"),
            Judged::NoClaim => write!(f, "no claim"),
            Judged::Many => write!(f, "many"),
            Judged::OutFull(a, b) => write!(f, "out full {a} {b}"),
            Judged::Few => write!(f, "few"),
            Judged::Both(a, b) => {
                write!(f, "both {a} {b} | ")?;
                if a <= self.out.len() && b <= self.out.len() - a {
                    let first = Columns(&self.out[..a]);
                    let second = Columns(&self.out[a..][..b]);
                    write!(f, "{first} | {second}")?;
                }
                Ok(())
            }
        }
    }
}

// Judges a claim, with work memory of exactly the floor. A first word is shorter than there are classes, so two words for each class are room for any answer.
fn judge_line(rt: &HostRuntime, question: &Question) -> anyhow::Result<()> {
    let words = floor(&question.bytes, question.most);
    if words > MOST_WORDS {
        println!(rt; "too much memory: {words} words")?;
        return Ok(());
    }
    let room = match question.out {
        Some(n) => n as usize,
        None => 2 * question.most as usize,
    };
    let mut work = vec![in rt.alloc(); 0u32; words as usize]?;
    let mut out = vec![in rt.alloc(); 0u32; room]?;
    let judged = judge(&question.bytes, question.most, &mut out, &mut work);
    let answer = Answer { judged, out: &out };
    println!(rt; "{answer}")?;
    Ok(())
}

// The number of out words that stands on a line, if one does.
fn read_out(field: Option<&[u8]>) -> Result<Option<u32>, Fault<'_>> {
    let Some(digits) = field else {
        return Ok(None);
    };
    match read_number(digits) {
        Some(n) => Ok(Some(n)),
        None => Err(Fault::OutWords(digits)),
    }
}

fn read_line(heap: Global, text: &[u8]) -> Result<Question, Fault<'_>> {
    let parts = read_fields(text)?;
    let Some(most) = read_number(parts.most) else {
        return Err(Fault::Most(parts.most));
    };
    let out = read_out(parts.out)?;
    let bytes = read_bytes(heap, parts.bytes)?;
    Ok(Question { most, bytes, out })
}

fn answer_line(rt: &HostRuntime, number: u64, text: &[u8]) -> anyhow::Result<()> {
    match read_line(rt.alloc(), text) {
        Ok(question) => judge_line(rt, &question),
        Err(fault) => {
            println!(rt; "line {number}: {fault}")?;
            Ok(())
        }
    }
}

fn run(rt: &HostRuntime) -> anyhow::Result<()> {
    let mut number = 0u64;
    for text in BufReader::new(rt.alloc(), rt.stdin())?.split(rt.alloc(), b'\n') {
        number = number.saturating_add(1);
        answer_line(rt, number, &text?)?;
    }
    Ok(())
}

fn main(rt: HostRuntime) -> anyhow::Result<()> {
    run(&rt)
}
