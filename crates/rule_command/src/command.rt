// The command line of `conveyor`.
ghost use Rattle.std.specs.Prelude.{◌≡◌, ◌≢◌, ◌⊎◌};
ghost use Rattle.clap.specs.Values.{kind_of};
ghost use Rattle.clap.specs.declared.error.kind.ErrorKind.TheVariants.{DisplayHelp, DisplayVersion};
ghost use Rattle.rule_command.specs.Wanted.{AreWanted};

use clap::error::Error;
use clap::{Arg, ArgAction, ArgMatches, Command};
use rule_report::options::Options;
use std::alloc::Global;

const ABOUT: &str = "Says what holds of rows of conveyor modules, for rows of every length";

const MORE: &str =
    "Each claim of a rule is settled for every length, or the first row where it fails is shown, or it is too large.
Without FILE, or where it is `-`, a rule is read from standard input. A file that is at fault is told on
standard error, and the status is 1; the other files are still read.

docs/RULES.md says what stands in a rule file.";

// The arguments.
fn command<'a>(alloc: Global) -> Result<Command<'a>, Error> {
    let files = Arg::new(alloc, "FILE")
        .action(ArgAction::Append)
        .num_args(0..)
        .help("Rule files");
    let most = Arg::new(alloc, "most")
        .long("most")
        .value_name("N")
        .value_parser(clap::value_parser!(u32))
        .help(
            "At most N classes of rows are told apart at a part of a claim [default: as many as 4 MiB have room for]",
        );
    let steps = Arg::new(alloc, "steps")
        .long("steps")
        .value_name("N")
        .value_parser(clap::value_parser!(u32))
        .help("Show the N rows after each given row and each first row");
    let why = Arg::new(alloc, "why")
        .long("why")
        .action(ArgAction::SetTrue)
        .help("Show of each choice of helpers before the answer why it does not keep a claim");
    let show = Arg::new(alloc, "show")
        .long("show")
        .action(ArgAction::SetTrue)
        .help("Show each claim as a text that settle and MONA read");
    let bytes = Arg::new(alloc, "bytes")
        .long("bytes")
        .action(ArgAction::SetTrue)
        .help("Show each claim as bytes, as the line tool reads them");
    let picture = Arg::new(alloc, "picture")
        .long("picture")
        .value_name("FOLDER")
        .help(
            "Draw each given row and each first row, with the rows after it, as an SVG file in FOLDER",
        );
    Ok(
        Command::new(alloc, "conveyor")
            .version("1.0.0")
            .about(ABOUT)
            .after_help(MORE)
            .arg(files)?
            .arg(most)?
            .arg(steps)?
            .arg(why)?
            .arg(show)?
            .arg(bytes)?
            .arg(picture)?,
    )
}

/// What the words of the command line ask for. An error also where they ask for help or for the version.
pub fn parse<'a>(alloc: Global, words: &'a [String]) -> Result<ArgMatches<'a>, Error> {
    command(alloc)?.try_get_matches_from(words)
}

/// The status with which the program ends where the words are refused, or ask for help or for the version.
pub fn status_of(error: &Error) -> u8
    ensures shown { (kind_of error.now ≡ DisplayHelp) ⊎ (kind_of error.now ≡ DisplayVersion) → result ≡ 0 }
    ensures mistake { kind_of error.now ≢ DisplayHelp → kind_of error.now ≢ DisplayVersion → result ≡ 1 }
{
    if error.exit_code() == 0 { 0 } else { 1 }
}

/// How the report is wanted.
pub fn options_of(matches: &ArgMatches<'_>) -> Options
    ensures { AreWanted matches.now result }
{
    Options {
        most: matches.get_one::<u32>("most"),
        steps: matches.get_one::<u32>("steps").unwrap_or(0),
        show: matches.get_flag("show"),
        bytes: matches.get_flag("bytes"),
        pictures: matches.get_str("picture").is_some(),
        why: matches.get_flag("why"),
    }
}
