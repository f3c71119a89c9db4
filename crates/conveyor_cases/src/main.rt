// Cases of `conveyor`: files that are at fault and words that are refused, with the message on standard error and the status of each; claims that are too
// large, with the place; a rule that counts its trays; claims with helpers, and why choices of these do not help. `conveyor_cases FILE..`
#![tactic(auto)]

use rule_command::command::{parse, status_of};
use rule_report::options::Options;
use rule_report::report::report_file;
use std::{env, fs};
use strengthen::watch::Unwatched;

// What is told of a file, and the status with which the program would end.
fn file_case(rt: &HostRuntime, file: &str, options: &Options) -> anyhow::Result<()> {
    let text = fs::read_to_string(rt, file)?;
    match report_file(rt.alloc(), file, text.as_str(), options, &mut Unwatched)? {
        Ok(report) => {
            println!(rt; "== {file}: status 0")?;
            print!(rt; "{}", report.text)?;
        }
        Err(message) => {
            println!(rt; "== {file}: status 1")?;
            print!(rt; "{message}")?;
        }
    }
    Ok(())
}

// What is told where the words of the command line are refused.
fn words_case(rt: &HostRuntime, words: &[&str]) -> anyhow::Result<()> {
    let mut all = Vec::new(rt.alloc());
    print!(rt; "==")?;
    for word in words {
        print!(rt; " {word}")?;
        all.push(String::from_str(rt.alloc(), *word)?)?;
    }
    match parse(rt.alloc(), &all) {
        Ok(_) => println!(rt; ": taken")?,
        Err(error) => {
            println!(rt; ": status {}", status_of(&error))?;
            print!(rt; "{error}")?;
        }
    }
    Ok(())
}

fn run(rt: &HostRuntime) -> anyhow::Result<()> {
    let plain = Options {
        most: None,
        steps: 0,
        show: false,
        bytes: false,
        pictures: false,
        why: false,
    };
    for file in env::args(rt)?.skip(1) {
        file_case(rt, file.as_str(), &plain)?;
    }
    let narrow = Options {
        most: Some(20),
        steps: 0,
        show: false,
        bytes: false,
        pictures: false,
        why: false,
    };
    file_case(rt, "large.txt", &narrow)?;
    file_case(rt, "kept-large.txt", &narrow)?;
    file_case(rt, "helped-large.txt", &narrow)?;
    let whys = Options {
        most: None,
        steps: 0,
        show: false,
        bytes: false,
        pictures: false,
        why: true,
    };
    file_case(rt, "same-helpers.txt", &whys)?;
    file_case(rt, "helper-none.txt", &whys)?;
    words_case(rt, &["conveyor", "--nonsense"])?;
    words_case(rt, &["conveyor", "--steps", "many", "rule.txt"])?;
    words_case(rt, &["conveyor", "--most"])?;
    words_case(rt, &["conveyor", "--version"])?;
    words_case(rt, &["conveyor", "--help"])?;
    words_case(rt, &["conveyor", "--steps", "2", "rule.txt"])
}

fn main(rt: HostRuntime) -> anyhow::Result<()> {
    run(&rt)
}
