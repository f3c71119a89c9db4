// How many claims are judged until it is known which helpers keep what a rule claims, and how many if no choice is passed over. `helper_calls FILE..`
// A line for each claim that a file says to be kept. It ends with a fault where the two disagree.
#![tactic(auto)]

mod one_by_one;
mod tally;

use crate::one_by_one::one_by_one;
use crate::tally::Tally;
use anyhow::bail;
use rule_check::memory::Memory;
use rule_source::fault::Fault;
use rule_source::kept::{Keep, keeps_of};
use rule_source::source::{Source, source_of};
use std::{env, fs};
use strengthen::answer::Stronger;
use strengthen::listed::Listed;
use strengthen::strengthen::strengthen;

// The choice that is found, if one is. Ends where a choice is too large.
fn choice_of(answer: Stronger) -> anyhow::Result<Option<Vec<usize>>> {
    match answer {
        Stronger::With(choice) => Ok(Some(choice)),
        Stronger::NoneAmong => Ok(None),
        Stronger::TooLarge(_) => bail!("too large"),
    }
}

// What was found, in words.
fn told(rt: &HostRuntime, found: &Option<Vec<usize>>, many: usize) -> anyhow::Result<()> {
    match found {
        None => print!(rt; "kept with no choice of {many} helpers")?,
        Some(choice) => print!(rt; "kept with {} of {many} helpers", choice.len())?,
    }
    Ok(())
}

// The lines of a claim.
fn count(rt: &HostRuntime, file: &str, source: &Source<'_>, keep: &Keep<'_>) -> anyhow::Result<()> {
    let memory = Memory::program(u32::MAX);
    let given = Listed::new(rt.alloc(), &keep.keeping, &source.helpers)?;
    let mut tally = Tally { judged: 0 };
    let answer = strengthen(rt.alloc(), given, memory, &mut tally)?;
    let found = choice_of(answer)?;
    let met = one_by_one(rt.alloc(), given, memory)?;
    if found != met.choice {
        bail!("{file}: one by one it is another choice");
    }
    print!(rt; "{file}: {}: ", keep.name)?;
    told(rt, &found, given.helpers.len())?;
    println!(rt; "\n  {} claims judged", tally.judged)?;
    println!(rt; "  one by one {}, of {} choices", met.judged, met.choices)?;
    Ok(())
}

// Ends with the message of a file that is at fault.
fn refuse(file: &str, text: &str, fault: &Fault) -> anyhow::Result<()> {
    let shown = fault.shown(file, text);
    bail!("{shown}")
}

// The lines of a file.
fn count_all(rt: &HostRuntime, file: &str, source: &Source<'_>) -> anyhow::Result<()> {
    match keeps_of(rt.alloc(), source) {
        Ok(keeps) => {
            for keep in &keeps {
                count(rt, file, source, keep)?;
            }
            Ok(())
        }
        Err(fault) => refuse(file, source.bits.text, &fault),
    }
}

fn run(rt: &HostRuntime) -> anyhow::Result<()> {
    for word in env::args(rt)?.skip(1) {
        let file = word.as_str();
        let text = fs::read_to_string(rt, file)?;
        match source_of(rt.alloc(), text.as_str()) {
            Ok(source) => count_all(rt, file, &source)?,
            Err(fault) => refuse(file, text.as_str(), &fault)?,
        }
    }
    Ok(())
}

fn main(rt: HostRuntime) -> anyhow::Result<()> {
    run(&rt)
}
