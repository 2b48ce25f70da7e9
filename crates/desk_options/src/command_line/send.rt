//! The subcommand `send`.

ghost use Rattle.std.specs.Prelude.{◌≡◌, ◌≢◌, ◌∷◌, [], ℕ, Option, Some, None, false, IfOk, IfErr, codes, map};
ghost use Rattle.std.specs.Prelude.{slice_get};
ghost use Rattle.clap.specs.Matches.{found_of};
ghost use Rattle.clap.specs.Simple.{app_of};
ghost use Rattle.clap.specs.Walk.{first_of, rows_of, rule_of};
ghost use Rattle.desk_options.specs.CommandLine.{nodes_rule, optional_rule, port_rule, seconds_rule, send_app};
ghost use Rattle.desk_options.specs.CommandLine.{AsksFor, AskForNothing, OnRefused, most_port};
ghost use Rattle.desk_options.specs.CommandLine.{SpellsSeconds, FindsSeconds, FindsGroup, AreFollowOptions, IsFollowed};
ghost use Rattle.desk_options.specs.Commands.{AddsRules};
ghost use Rattle.desk_options.specs.declared.command_line.choice.FollowOptions.{FollowOptions};
ghost use Rattle.desk_options.specs.declared.command_line.port.TheConstants.{MOST_SESSION_PORT};

use super::network::{session_key_found, text_found, with_hosts, with_text_option};
use super::port::{MOST_GROUP_PORT, MOST_SESSION_PORT, port_argument, port_found};
use super::{
    FollowOptions, HelpTexts, Options, OptionsFault, SendOptions, nodes_found, read_words,
    subcommand, with_argument,
};
use clap::builder::ValueParser;
use clap::{Arg, ArgMatches, Command};
use std::alloc::{AllocError, Global};

/// For how long a line is asked again where no seconds are given, in seconds.
pub const USUAL_SECONDS: u16 = 30;

/// The most seconds that a command line may give.
pub const MOST_SECONDS: u16 = 3_600;

/// `--nodes`, which may be left out.
fn followed_argument<'a>(alloc: Global) -> Arg<'a>
    ensures rule { rule_of result ≡ optional_rule nodes_rule }
    ensures local { result.global ≡ false }
{
    Arg::new(alloc, "nodes")
        .long("nodes")
        .value_parser(clap::value_parser!(u8))
        .help(
            "How many nodes a group has, 3 or 5; a line goes to its primary until its final reply",
        )
}

/// `--seconds`, which may be left out.
pub(crate) fn seconds_argument<'a>(alloc: Global, help: &'a str) -> Arg<'a>
    ensures rule { rule_of result ≡ seconds_rule }
    ensures local { result.global ≡ false }
{
    Arg::new(alloc, "seconds")
        .long("seconds")
        .value_parser(ValueParser::signed(1, MOST_SECONDS as i64))
        .help(help)
}

/// A command with the arguments of `send`: the port, and what a group is followed by.
fn with_send<'a>(
    alloc: Global,
    command: Result<Command<'a>, AllocError>,
) -> Result<Command<'a>, AllocError>
    ensures { AddsRules command.entry
        (port_rule MOST_SESSION_PORT ∷ optional_rule nodes_rule ∷ seconds_rule ∷ []) result }
{
    let help =
        "A node's port for sessions, 1024 to 65014; with --nodes the group's first, to 65000";
    let ported = with_argument(command, port_argument(alloc, MOST_SESSION_PORT, help));
    let followed = with_argument(ported, followed_argument(alloc));
    let help = "With --nodes, for how long a line is asked again: from 1 to 3600 seconds, else 30";
    with_argument(followed, seconds_argument(alloc, help))
}

/// `send`, with its arguments.
pub(crate) fn send_command<'a>(alloc: Global) -> Result<Command<'a>, AllocError>
    ensures { IfOk result (λ c. app_of c ≡ send_app) }
{
    let texts = HelpTexts {
        bin_name: "desk send",
        about: "Sends the documents on the standard input to a node or a group, one a line, and prints its replies",
        after_help: "\
The nodes are those of `desk serve` or `desk cluster`. Where these were given --port PORT, the sessions of node I
are at port PORT + 10 + I of this host, or of --host or the I-th of --hosts. With --nodes the port is PORT itself, and
a line goes to one node after another until its final reply comes.

Examples: desk send --port 4010 < examples/first-incident.jsonl
          desk send --port 4000 --nodes 3 < examples/first-incident.jsonl",
    };
    let command = with_send(alloc, subcommand(alloc, "send", texts));
    let help = "Without --nodes, the address or name of the node's host, else 127.0.0.1";
    with_hosts(alloc, with_text_option(alloc, command, "host", help))
}

/// What is printed of seconds that are no number from 1 to 3,600.
const SECONDS_FAULT: &str = "desk: seconds must be 1 to 3600\n";

/// The seconds that a text spells.
fn seconds_of(alloc: Global, text: &str) -> Result<u16, OptionsFault>
    ensures found { IfOk result (λ seconds. SpellsSeconds text.now seconds) }
    ensures refused { IfErr result (λ f. OnRefused f ((seconds : ℕ) → SpellsSeconds text.now seconds → ⊥)) }
{
    match text.parse::<i64>() {
        Ok(seconds) if 1 <= seconds && seconds <= MOST_SECONDS as i64 => Ok(seconds as u16),
        _ => Err(OptionsFault::refused(alloc, SECONDS_FAULT)),
    }
}

/// The seconds that were given, or else the usual ones.
pub(crate) fn seconds_found(alloc: Global, matches: &ArgMatches<'_>) -> Result<u16, OptionsFault>
    ensures found { IfOk result (FindsSeconds (rows_of (found_of matches.now))) }
    ensures refused { IfErr result (λ f. OnRefused f
        ((seconds : ℕ) → FindsSeconds (rows_of (found_of matches.now)) seconds → ⊥)) }
{
    match matches.get_str("seconds") {
        Some(text) => seconds_of(alloc, text),
        None => Ok(USUAL_SECONDS),
    }
}

/// No group, where no number of nodes was given. Seconds are refused then.
fn no_group(alloc: Global, matches: &ArgMatches<'_>) -> Result<Option<FollowOptions>, OptionsFault>
    ensures found { IfOk result (λ group. (group ≡ None)
        × (first_of (codes "seconds") (rows_of (found_of matches.now)) ≡ None)) }
    ensures refused { IfErr result (λ f. OnRefused f
        (first_of (codes "seconds") (rows_of (found_of matches.now)) ≢ None)) }
{
    match matches.get_str("seconds") {
        Some(_) => Err(OptionsFault::refused(alloc, "desk: seconds need a number of nodes\n")),
        None => Ok(None),
    }
}

/// The group, where a number of nodes was given.
fn some_group(
    alloc: Global,
    matches: &ArgMatches<'_>,
) -> Result<Option<FollowOptions>, OptionsFault>
    ensures found { IfOk result (IsFollowed (rows_of (found_of matches.now))) }
    ensures refused { IfErr result (λ f. OnRefused f
        ((group : FollowOptions) → AreFollowOptions (rows_of (found_of matches.now)) group → ⊥)) }
{
    let nodes = nodes_found(alloc, matches)?;
    let seconds = seconds_found(alloc, matches)?;
    Ok(Some(FollowOptions { nodes, seconds }))
}

/// The group that is to be followed, where one is.
fn group_found(
    alloc: Global,
    matches: &ArgMatches<'_>,
) -> Result<Option<FollowOptions>, OptionsFault>
    ensures found { IfOk result (FindsGroup (rows_of (found_of matches.now))) }
    ensures refused { IfErr result (λ f. OnRefused f
        ((group : Option FollowOptions) → FindsGroup (rows_of (found_of matches.now)) group → ⊥)) }
{
    match matches.get_str("nodes") {
        Some(_) => some_group(alloc, matches),
        None => no_group(alloc, matches),
    }
}

/// The greatest port that may be given.
fn most_port(group: &Option<FollowOptions>) -> u16
    ensures { result ≡ most_port group.now }
{
    match group {
        Some(_) => MOST_GROUP_PORT,
        None => MOST_SESSION_PORT,
    }
}

/// `send` asks for the port of a node's sessions, or for a group and its first port.
pub(crate) fn send_options(alloc: Global, words: &[&str]) -> Result<Options, OptionsFault>
    requires { slice_get (map (λ s. s.now) words.now) 0 ≡ Some (codes "send") }
    ensures asked { IfOk result (AsksFor (map (λ s. s.now) words.now)) }
    ensures refused { IfErr result (λ f. OnRefused f (AskForNothing (map (λ s. s.now) words.now))) }
{
    let matches = read_words(alloc, send_command(alloc), words)?;
    let group = group_found(alloc, &matches)?;
    let port = port_found(alloc, &matches, most_port(&group))?;
    let host = text_found(alloc, &matches, "host")?;
    let hosts = text_found(alloc, &matches, "hosts")?;
    let key = session_key_found(alloc, &matches)?;
    Ok(Options::Send(SendOptions {
        port,
        group,
        host,
        hosts,
        key,
    }))
}
