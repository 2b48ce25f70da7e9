//! The subcommand `log`.

ghost use Rattle.std.specs.Prelude.{◌≡◌, ◌∷◌, [], ℕ, Some, false, IfOk, IfErr, codes, map, slice_get};
ghost use Rattle.clap.specs.Matches.{found_of};
ghost use Rattle.clap.specs.Simple.{app_of};
ghost use Rattle.clap.specs.Walk.{rows_of, rule_of};
ghost use Rattle.desk_options.specs.CommandLine.{AsksFor, AskForNothing, OnRefused, FindsFrom};
ghost use Rattle.desk_options.specs.CommandLine.{file_rule, from_rule, log_app};

use super::answer::file_found;
use super::{
    HelpTexts, LogOptions, Options, OptionsFault, number_of, read_words, subcommand, with_argument,
};
use clap::builder::ValueParser;
use clap::{Arg, ArgMatches, Command};
use desk_types::limits::LAST_PLACE;
use std::alloc::{AllocError, Global};

/// `--file`, any text.
fn read_file_argument<'a>(alloc: Global) -> Arg<'a>
    ensures rule { rule_of result ≡ file_rule }
    ensures local { result.global ≡ false }
{
    Arg::new(alloc, "file").long("file").required(true).help(
        "The SQLite file of a node that is stopped, or a copy of it",
    )
}

/// `--from`, which may be left out.
fn from_argument<'a>(alloc: Global) -> Arg<'a>
    ensures rule { rule_of result ≡ from_rule }
    ensures local { result.global ≡ false }
{
    Arg::new(alloc, "from")
        .long("from")
        .value_parser(ValueParser::signed(1, LAST_PLACE as i64))
        .help("The first place whose command is printed, else 1")
}

/// `log`, with its arguments.
pub(crate) fn log_command<'a>(alloc: Global) -> Result<Command<'a>, AllocError>
    ensures { IfOk result (λ c. app_of c ≡ log_app) }
{
    let texts = HelpTexts {
        bin_name: "desk log",
        about: "Prints the committed commands that a node's file keeps, one document a line, in order",
        after_help: "\
`desk replay` makes the same board of all of them. A file is only read, with the log beside it (FILE-wal). Where its
log is full, FILE.1 follows, then FILE.2 and so on.

Example: desk log --file node-0.db --from 1000",
    };
    let filed = with_argument(subcommand(alloc, "log", texts), read_file_argument(alloc));
    with_argument(filed, from_argument(alloc))
}

/// The place that was given, or else the first.
fn from_found(alloc: Global, matches: &ArgMatches<'_>) -> Result<u64, OptionsFault>
    ensures found { IfOk result (FindsFrom (rows_of (found_of matches.now))) }
    ensures refused { IfErr result (λ f. OnRefused f
        ((place : ℕ) → FindsFrom (rows_of (found_of matches.now)) place → ⊥)) }
{
    let fault = "desk: from must be 1 to 999999999999\n";
    match matches.get_str("from") {
        Some(text) => number_of(alloc, text, LAST_PLACE, fault),
        None => Ok(1),
    }
}

/// `log` asks for the file of a node, and for the place that its lines begin with.
pub(crate) fn log_options(alloc: Global, words: &[&str]) -> Result<Options, OptionsFault>
    requires { slice_get (map (λ s. s.now) words.now) 0 ≡ Some (codes "log") }
    ensures asked { IfOk result (AsksFor (map (λ s. s.now) words.now)) }
    ensures refused { IfErr result (λ f. OnRefused f (AskForNothing (map (λ s. s.now) words.now))) }
{
    let matches = read_words(alloc, log_command(alloc), words)?;
    let file = file_found(alloc, &matches)?;
    let from = from_found(alloc, &matches)?;
    Ok(Options::Log(LogOptions { file, from }))
}
