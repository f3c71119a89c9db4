// Answers in one form: `never`, or the columns of the first row.
use anyhow::bail;
use claim_report::report::{Form, Source, Wish, report};
use display::columns::Columns;
use rule_check::verdict::Verdict;
use std::alloc::Global;

/// What is found of a rule of modules of so many bits. A module's column has the row's bit, too.
pub fn answer_of(alloc: Global, bits: u8, verdict: &Verdict) -> anyhow::Result<String> {
    match verdict {
        Verdict::Never => Ok(String::from_str(alloc, "never")?),
        Verdict::TooLarge(n) => Ok(format!(in alloc; "more than {n} classes")?),
        Verdict::First(row) => {
            let mut word = Vec::new(alloc);
            for module in row {
                if bits < 32 {
                    word.push(*module | 1u32 << bits)?;
                }
            }
            if word.is_empty() {
                return Ok(String::from_str(alloc, "first")?);
            }
            let columns = Columns(&word);
            Ok(format!(in alloc; "first {columns}")?)
        }
    }
}

/// What comes of a text: an answer in the form above, with how many sets and bytes the claim takes that it is read as; or why there is none.
#[derive(Drop)]
pub enum Settled {
    Answer(String, String),
    Refused(String),
}

// The columns of the first row, or `never` or `always`.
fn first_of(alloc: Global, answer: &str) -> anyhow::Result<String> {
    let line = answer.trim();
    let mut parts = line.split("|");
    let _ = parts.next();
    match parts.next() {
        Some(columns) => {
            let columns = columns.trim();
            if columns.is_empty() {
                Ok(String::from_str(alloc, "first")?)
            } else {
                Ok(format!(in alloc; "first {columns}")?)
            }
        }
        None => Ok(String::from_str(alloc, line)?),
    }
}

// The number of sets, which is the first byte, and of bytes on a line for the line tool.
fn size_of(alloc: Global, lines: &str) -> anyhow::Result<String> {
    let Some(line) = lines.lines().next() else {
        bail!("expected a line");
    };
    let Some((_, digits)) = line.split_once(" ") else {
        bail!("expected two words");
    };
    let bytes = digits.len() / 2;
    let mut first = String::new(alloc);
    for c in digits.chars().take(2) {
        first.push(c)?;
    }
    let Ok(sets) = u8::from_str_radix(first.as_str(), 16) else {
        bail!("expected hex digits");
    };
    Ok(format!(in alloc; "{sets} sets, {bytes} bytes")?)
}

/// What `settle` says of a text.
pub fn asked_of_settle(alloc: Global, text: &str) -> anyhow::Result<Settled> {
    let source = Source {
        file: "text",
        text: text.as_bytes(),
    };
    let lines = match report(alloc, source, None, Wish::Bytes)? {
        Ok(lines) => lines,
        Err(message) => return Ok(Settled::Refused(message)),
    };
    match report(alloc, source, None, Wish::Answer(Form::Columns))? {
        Ok(answer) => Ok(Settled::Answer(
            first_of(alloc, answer.as_str())?,
            size_of(alloc, lines.as_str())?,
        )),
        Err(message) => Ok(Settled::Refused(message)),
    }
}
