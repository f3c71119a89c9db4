// Reads texts, with a line `----` behind each, and prints what is read of them, or the fault. What is printed is read again: the two trees must be the same.
#![tactic(auto)]

use printing::print::{Style, items};
use std::alloc::{AllocError, Global};
use std::io::{BufRead, BufReader};
use syntax::fault::Fault;
use syntax::parse::read;
use trees::beside::beside;

// A fault as it is shown, or its message where nothing in the text is at fault.
fn shown_fault(heap: Global, text: &[u8], fault: &Fault) -> Result<String, AllocError> {
    let message = fault.message(heap, text)?;
    match fault.span() {
        Some(span) => {
            let beside = beside("case", text, span, message.as_str());
            format!(in heap; "{beside}")
        }
        None => Ok(message),
    }
}

// Prints a text's tree, and says whether it is the same when it is read again.
fn tell(rt: &HostRuntime, text: &[u8]) -> anyhow::Result<()> {
    let tree = match read(rt.alloc(), text) {
        Ok(tree) => tree,
        Err(fault) => {
            let told = shown_fault(rt.alloc(), text, &fault)?;
            println!(rt; "{told}")?;
            return Ok(());
        }
    };
    let few = items(rt.alloc(), Style::Few, &tree)?;
    println!(rt; "{few}")?;
    let all = items(rt.alloc(), Style::All, &tree)?;
    tell_again(rt, few.as_str(), all.as_str())?;
    tell_again(rt, all.as_str(), all.as_str())
}

// Says nothing if a text's tree is the one whose text with all parentheses is given.
fn tell_again(rt: &HostRuntime, text: &str, all: &str) -> anyhow::Result<()> {
    let Ok(tree) = read(rt.alloc(), text.as_bytes()) else {
        println!(rt; "not read again: {text}")?;
        return Ok(());
    };
    let again = items(rt.alloc(), Style::All, &tree)?;
    if again.as_str() != all {
        println!(rt; "read again as another tree: {again}")?;
    }
    Ok(())
}

fn run(rt: &HostRuntime) -> anyhow::Result<()> {
    let mut text = Vec::new(rt.alloc());
    for line in BufReader::new(rt.alloc(), rt.stdin())?.split(rt.alloc(), b'\n') {
        let line = line?;
        if line.as_slice() == b"----".as_slice() {
            tell(rt, &text)?;
            text.clear();
        } else {
            text.extend_from_slice(&line)?;
            text.push(b'\n')?;
        }
    }
    Ok(())
}

fn main(rt: HostRuntime) -> anyhow::Result<()> {
    run(&rt)
}
