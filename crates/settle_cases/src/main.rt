// Settles texts, with a line `----` behind each, and prints the answer or the message that stands in its place.
// A first line `most N` says how many classes may be told apart, `columns` and `bytes` how the answer is shown.
#![tactic(auto)]

use claim_report::report::{Form, Source, Wish, report};
use std::io::{BufRead, BufReader};
use std::str::from_utf8;

// How a text is to be settled.
#[derive(Clone, Copy)]
struct Wanted {
    most: Option<u32>,
    wish: Wish,
}

// What a line says of how the text below it is to be settled, if it says something.
fn setting(line: &[u8], before: Wanted) -> Option<Wanted> {
    match line {
        b"columns" => Some(Wanted {
            most: before.most,
            wish: Wish::Answer(Form::Columns),
        }),
        b"bytes" => Some(Wanted {
            most: before.most,
            wish: Wish::Bytes,
        }),
        [b'm', b'o', b's', b't', b' ', digits @ ..] => {
            let Ok(digits) = from_utf8(digits) else {
                return None;
            };
            let Ok(most) = digits.parse::<u32>() else {
                return None;
            };
            Some(Wanted {
                most: Some(most),
                wish: before.wish,
            })
        }
        _ => None,
    }
}

fn tell(rt: &HostRuntime, text: &[u8], wanted: Wanted) -> anyhow::Result<()> {
    let source = Source { file: "case", text };
    match report(rt.alloc(), source, wanted.most, wanted.wish)? {
        Ok(answer) => println!(rt; "{answer}")?,
        Err(message) => println!(rt; "{message}")?,
    }
    Ok(())
}

const PLAIN: Wanted = Wanted {
    most: None,
    wish: Wish::Answer(Form::Rows),
};

fn run(rt: &HostRuntime) -> anyhow::Result<()> {
    let mut text = Vec::new(rt.alloc());
    let mut how = PLAIN;
    for line in BufReader::new(rt.alloc(), rt.stdin())?.split(rt.alloc(), b'\n') {
        let line = line?;
        if line.as_slice() == b"----".as_slice() {
            tell(rt, &text, how)?;
            text.clear();
            how = PLAIN;
        } else if let Some(said) = setting(&line, how) {
            how = said;
        } else {
            text.extend_from_slice(&line)?;
            text.push(b'\n')?;
        }
    }
    Ok(())
}

fn main(rt: HostRuntime) -> anyhow::Result<()> {
    run(&rt)
}
