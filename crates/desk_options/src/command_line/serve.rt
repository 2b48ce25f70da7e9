//! The subcommand `serve`.

ghost use Rattle.std.specs.Prelude.{◌≡◌, false, Some, IfOk, IfErr, codes, map, slice_get};
ghost use Rattle.clap.specs.Matches.{found_of};
ghost use Rattle.clap.specs.Simple.{app_of};
ghost use Rattle.clap.specs.Walk.{rows_of, rule_of};
ghost use Rattle.desk_options.specs.CommandLine.{flag_rule, FindsFlag};
ghost use Rattle.desk_options.specs.CommandLine.{serve_app, AsksFor, AskForNothing, OnRefused};

use super::answer::{file_argument, file_found, node_argument, owner_found};
use super::epochs::{epoch_places_found, member_found, with_epochs};
use super::network::{session_key_found, text_found, with_hosts};
use super::port::{MOST_GROUP_PORT, port_found, with_network_group};
use super::{
    HelpTexts, Options, OptionsFault, ServeOptions, read_words, subcommand, with_argument,
};
use clap::{Arg, ArgAction, ArgMatches, Command};
use std::alloc::{AllocError, Global};

/// An option of this name that has no value and may be left out, with what help says of it.
pub(crate) fn flag_argument<'a>(alloc: Global, name: &'a str, help: &'a str) -> Arg<'a>
    ensures rule { rule_of result ≡ flag_rule name.now }
    ensures local { result.global ≡ false }
{
    Arg::new(alloc, name)
        .long(name)
        .action(ArgAction::SetTrue)
        .help(help)
}

/// Whether a flag was given.
fn flag_found(matches: &ArgMatches<'_>, name: &str) -> bool
    ensures { FindsFlag (rows_of (found_of matches.now)) name.now result }
{
    matches.get_flag(name)
}

/// `serve`, with the arguments of a group on the network, of a node and of its file.
pub(crate) fn serve_command<'a>(alloc: Global) -> Result<Command<'a>, AllocError>
    ensures { IfOk result (λ c. app_of c ≡ serve_app) }
{
    let texts = HelpTexts {
        bin_name: "desk serve",
        about: "Runs one node of a group on the network of this host, with its state in a file",
        after_help: "\
Node I takes the other nodes at port PORT + I, and sessions at port PORT + 10 + I, on 127.0.0.1 or the
I-th of --hosts, which wants a key where it is no loopback. It ends with its standard input. Where the log of FILE
is full, it goes on in FILE.1, then in FILE.2 and so on.

Example: desk serve --node 0 --nodes 3 --domain desk.example --port 4000 --file node-0.db",
    };
    let command = with_argument(subcommand(alloc, "serve", texts), node_argument(alloc));
    let filed = with_argument(with_network_group(alloc, command), file_argument(alloc));
    let help = "Tells each change of the node in a line of JSON on standard error";
    let logged = with_argument(filed, flag_argument(alloc, "log", help));
    with_hosts(alloc, with_epochs(alloc, logged))
}

/// `serve` asks for a node of a group, a first port, and the file of the node's state.
pub(crate) fn serve_options(alloc: Global, words: &[&str]) -> Result<Options, OptionsFault>
    requires { slice_get (map (λ s. s.now) words.now) 0 ≡ Some (codes "serve") }
    ensures asked { IfOk result (AsksFor (map (λ s. s.now) words.now)) }
    ensures refused { IfErr result (λ f. OnRefused f (AskForNothing (map (λ s. s.now) words.now))) }
{
    let matches = read_words(alloc, serve_command(alloc), words)?;
    let owner = owner_found(alloc, &matches)?;
    let port = port_found(alloc, &matches, MOST_GROUP_PORT)?;
    let file = file_found(alloc, &matches)?;
    let hosts = text_found(alloc, &matches, "hosts")?;
    let key = text_found(alloc, &matches, "key")?;
    let client_key = session_key_found(alloc, &matches)?;
    let log = flag_found(&matches, "log");
    let next = flag_found(&matches, "next");
    let epoch_places = epoch_places_found(alloc, &matches)?;
    let member = member_found(alloc, &matches)?;
    Ok(Options::Serve(ServeOptions {
        owner,
        port,
        file,
        hosts,
        key,
        client_key,
        log,
        next,
        epoch_places,
        member,
    }))
}
