// Settles a claim: `settle FILE`, or from standard input. `--help` says how, docs/CLAIMS.md how a claim is written.
#![tactic(auto)]

mod options;

use crate::options::{Options, options_of, parse, status_of};
use claim_report::report::{Source, report};
use std::io::Read;
use std::process::ExitCode;
use std::rt::Files;
use std::{env, fs, io};

// The text of a file, or of standard input.
fn read_input(rt: &HostRuntime, file: &str) -> io::Result<Vec<u8>> {
    if file == "-" {
        let mut text = Vec::new(rt.alloc());
        rt.stdin().read_to_end(&mut text)?;
        Ok(text)
    } else {
        fs::read(rt, file)
    }
}

// Tells what is wanted of the text in a file.
fn settle_file(rt: &HostRuntime, file: &str, options: Options) -> anyhow::Result<ExitCode> {
    let text = match read_input(rt, file) {
        Ok(text) => text,
        Err(error) => {
            eprintln!(rt; "{file}: {error}")?;
            return Ok(ExitCode::FAILURE);
        }
    };
    let source = Source {
        file: if file == "-" { "input" } else { file },
        text: &text,
    };
    match report(rt.alloc(), source, options.most, options.wish)? {
        Ok(words) => {
            print!(rt; "{words}")?;
            Ok(ExitCode::SUCCESS)
        }
        Err(message) => {
            eprint!(rt; "{message}")?;
            Ok(ExitCode::FAILURE)
        }
    }
}

fn run(rt: &HostRuntime) -> anyhow::Result<ExitCode> {
    let words: Vec<String> = env::args(rt)?.collect(rt.alloc())?;
    let matches = match parse(rt.alloc(), &words) {
        Ok(matches) => matches,
        Err(error) => {
            error.print(rt)?;
            return Ok(ExitCode::from(status_of(&error)));
        }
    };
    let file = matches.get_str("FILE").unwrap_or("-");
    settle_file(rt, file, options_of(&matches))
}

fn main(rt: HostRuntime) -> anyhow::Result<ExitCode> {
    run(&rt)
}
