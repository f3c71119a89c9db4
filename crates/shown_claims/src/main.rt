// The claims of rules as texts: `settle` has to answer of each text what is found of the rule itself.
// A line for each rule and question: how many sets and bytes the claim takes that the text is read as, and whether the answers are the same.
// `shown_claims [--texts] FILE..`: `--texts` prints each text below its line.
#![tactic(auto)]

mod answers;
mod shown;

use crate::shown::{Shown, show};
use anyhow::bail;
use rule_source::claimed::claims_of;
use rule_source::fault::Fault;
use rule_source::source::{Source, source_of};
use rules::property::Property;
use rules::question::Question;
use std::{env, fs};

// Shows what each rule is asked, and the claims of its file.
fn show_all(rt: &HostRuntime, file: &str, source: &Source<'_>, texts: bool) -> anyhow::Result<()> {
    let general = [
        ("allowed", Property::Allowed),
        ("stuck", Property::Stuck),
        ("left", Property::Left),
    ];
    for (what, property) in general {
        let question = &Question::new(rt.alloc(), &source.rule, property)?;
        let shown = Shown {
            file,
            what,
            source,
            question,
        };
        show(rt, shown, texts)?;
    }
    match claims_of(rt.alloc(), source) {
        Ok(claims) => {
            for claim in &claims {
                let shown = Shown {
                    file,
                    what: claim.name,
                    source,
                    question: &claim.question,
                };
                show(rt, shown, texts)?;
            }
            Ok(())
        }
        Err(fault) => refuse(file, source.bits.text, &fault),
    }
}

// Ends with the message of a file that is at fault.
fn refuse(file: &str, text: &str, fault: &Fault) -> anyhow::Result<()> {
    let shown = fault.shown(file, text);
    bail!("{shown}")
}

fn run(rt: &HostRuntime) -> anyhow::Result<()> {
    let mut texts = false;
    for word in env::args(rt)?.skip(1) {
        if word.as_str() == "--texts" {
            texts = true;
            continue;
        }
        let file = word.as_str();
        let text = fs::read_to_string(rt, file)?;
        match source_of(rt.alloc(), text.as_str()) {
            Ok(source) => show_all(rt, file, &source, texts)?,
            Err(fault) => refuse(file, text.as_str(), &fault)?,
        }
    }
    Ok(())
}

fn main(rt: HostRuntime) -> anyhow::Result<()> {
    run(&rt)
}
