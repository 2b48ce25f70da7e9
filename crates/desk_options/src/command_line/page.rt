//! The subcommand `page`.

ghost use Rattle.std.specs.Prelude.{◌≡◌, ◌∷◌, [], ℕ, Some, false, IfOk, IfErr, codes, map, slice_get};
ghost use Rattle.clap.specs.Matches.{found_of};
ghost use Rattle.clap.specs.Simple.{app_of};
ghost use Rattle.clap.specs.Walk.{rows_of, rule_of};
ghost use Rattle.desk_options.specs.CommandLine.{listen_rule, nodes_rule, port_rule, seconds_rule, page_app};
ghost use Rattle.desk_options.specs.CommandLine.{AsksFor, AskForNothing, FindsListen, OnRefused};
ghost use Rattle.desk_options.specs.Commands.{AddsRules};
ghost use Rattle.desk_options.specs.declared.command_line.port.TheConstants.{MOST_GROUP_PORT};

use super::network::{session_key_found, text_found, with_hosts};
use super::port::{
    LEAST_PORT, MOST_GROUP_PORT, MOST_PORT, no_such_port, port_argument, port_found, port_of,
};
use super::send::{seconds_argument, seconds_found};
use super::{
    HelpTexts, Options, OptionsFault, PageOptions, nodes_argument, nodes_found, read_words,
    subcommand, with_argument,
};
use clap::builder::ValueParser;
use clap::{Arg, ArgMatches, Command};
use std::alloc::{AllocError, Global};

/// `--listen`, the port at which browsers come.
fn listen_argument<'a>(alloc: Global) -> Arg<'a>
    ensures rule { rule_of result ≡ listen_rule }
    ensures local { result.global ≡ false }
{
    Arg::new(alloc, "listen")
        .long("listen")
        .required(true)
        .value_parser(ValueParser::signed(LEAST_PORT as i64, MOST_PORT as i64))
        .help("The port at which browsers come, from 1024 to 65535")
}

/// A command with the arguments of `page`: the group, the port at which browsers come, and seconds.
fn with_page<'a>(
    alloc: Global,
    command: Result<Command<'a>, AllocError>,
) -> Result<Command<'a>, AllocError>
    ensures { AddsRules command.entry
        (port_rule MOST_GROUP_PORT ∷ nodes_rule ∷ listen_rule ∷ seconds_rule ∷ []) result }
{
    let help = "The group's first port, from 1024 to 65000";
    let ported = with_argument(command, port_argument(alloc, MOST_GROUP_PORT, help));
    let grouped = with_argument(ported, nodes_argument(alloc));
    let listening = with_argument(grouped, listen_argument(alloc));
    let help = "For how long a command is asked again: from 1 to 3600 seconds, else 30";
    with_argument(listening, seconds_argument(alloc, help))
}

/// `page`, with its arguments.
pub(crate) fn page_command<'a>(alloc: Global) -> Result<Command<'a>, AllocError>
    ensures { IfOk result (λ c. app_of c ≡ page_app) }
{
    let texts = HelpTexts {
        bin_name: "desk page",
        about: "Serves the live page of a group to browsers on this host",
        after_help: "\
The nodes are those of `desk serve` or `desk cluster`, on this host or at --hosts, which were given --port PORT.
Browsers on this host open http://127.0.0.1:LISTEN/. Whoever may connect there may send commands. It ends with its
standard input.

Example: desk page --port 4000 --nodes 3 --listen 8080",
    };
    let command = with_page(alloc, subcommand(alloc, "page", texts));
    with_hosts(alloc, command)
}

/// The port at which browsers come, as it was given.
fn listen_found(alloc: Global, matches: &ArgMatches<'_>) -> Result<u16, OptionsFault>
    ensures found { IfOk result (FindsListen (rows_of (found_of matches.now))) }
    ensures refused { IfErr result (λ f. OnRefused f
        ((port : ℕ) → FindsListen (rows_of (found_of matches.now)) port → ⊥)) }
{
    match matches.get_str("listen") {
        Some(text) => port_of(alloc, text, MOST_PORT),
        None => Err(no_such_port(alloc)),
    }
}

/// `page` asks for a group, a port at which browsers come, and for how long a command is asked again.
pub(crate) fn page_options(alloc: Global, words: &[&str]) -> Result<Options, OptionsFault>
    requires { slice_get (map (λ s. s.now) words.now) 0 ≡ Some (codes "page") }
    ensures asked { IfOk result (AsksFor (map (λ s. s.now) words.now)) }
    ensures refused { IfErr result (λ f. OnRefused f (AskForNothing (map (λ s. s.now) words.now))) }
{
    let matches = read_words(alloc, page_command(alloc), words)?;
    let nodes = nodes_found(alloc, &matches)?;
    let port = port_found(alloc, &matches, MOST_GROUP_PORT)?;
    let listen = listen_found(alloc, &matches)?;
    let seconds = seconds_found(alloc, &matches)?;
    let hosts = text_found(alloc, &matches, "hosts")?;
    let key = session_key_found(alloc, &matches)?;
    Ok(Options::Page(PageOptions {
        nodes,
        port,
        listen,
        seconds,
        hosts,
        key,
    }))
}
