// The command line of `settle`.
use claim_report::automaton::Drawing;
use claim_report::report::{Form, Wish};
use clap::error::Error;
use clap::{Arg, ArgAction, ArgMatches, Command};
use std::alloc::Global;

const ABOUT: &str =
    "Says of which places and finite sets of places a claim holds, for rows of every length";

const MORE: &str =
    "Without FILE, or where it is `-`, the claim is read from standard input. A text that is at fault is told on
standard error, and the status is 1.

docs/CLAIMS.md says how a claim is written.";

/// What the command line asks for.
#[derive(Clone, Copy, Debug, PartialEq, Eq)]
pub struct Options {
    /// At most so many classes are told apart at a part of the claim; without it as many as 4 MiB have room for.
    pub most: Option<u32>,
    /// How the answer is shown.
    pub wish: Wish,
}

// The arguments.
fn command<'a>(alloc: Global) -> Result<Command<'a>, Error> {
    let file = Arg::new(alloc, "FILE").help("The claim's text");
    let most = Arg::new(alloc, "most")
        .long("most")
        .value_name("N")
        .value_parser(clap::value_parser!(u32))
        .help(
            "At most N classes are told apart at a part of the claim [default: as many as 4 MiB have room for]",
        );
    let columns = Arg::new(alloc, "columns")
        .long("columns")
        .action(ArgAction::SetTrue)
        .help("Show the answer in one line, words as numbers");
    let bytes = Arg::new(alloc, "bytes")
        .long("bytes")
        .action(ArgAction::SetTrue)
        .help(
            "Show the claim and its opposite as bytes, as the line tool reads them, and no answer",
        );
    let automaton = Arg::new(alloc, "automaton")
        .long("automaton")
        .action(ArgAction::SetTrue)
        .help("Show the smallest automaton of the claim: its states, and which columns lead where");
    let dot = Arg::new(alloc, "dot")
        .long("dot")
        .action(ArgAction::SetTrue)
        .help("Show the smallest automaton as Graphviz reads it");
    Ok(
        Command::new(alloc, "settle")
            .version("1.0.0")
            .about(ABOUT)
            .after_help(MORE)
            .arg(file)?
            .arg(most)?
            .arg(columns)?
            .arg(bytes)?
            .arg(automaton)?
            .arg(dot)?,
    )
}

/// What the words of the command line ask for. An error also where they ask for help or for the version.
pub fn parse<'a>(alloc: Global, words: &'a [String]) -> Result<ArgMatches<'a>, Error> {
    command(alloc)?.try_get_matches_from(words)
}

/// The status with which the program ends where the words are refused, or ask for help or for the version.
pub fn status_of(error: &Error) -> u8 {
    if error.exit_code() == 0 { 0 } else { 1 }
}

/// How the answer is wanted.
pub fn options_of(matches: &ArgMatches<'_>) -> Options {
    let wish = if matches.get_flag("bytes") {
        Wish::Bytes
    } else if matches.get_flag("dot") {
        Wish::Automaton(Drawing::Dot)
    } else if matches.get_flag("automaton") {
        Wish::Automaton(Drawing::Plain)
    } else if matches.get_flag("columns") {
        Wish::Answer(Form::Columns)
    } else {
        Wish::Answer(Form::Rows)
    };
    Options {
        most: matches.get_one::<u32>("most"),
        wish,
    }
}
