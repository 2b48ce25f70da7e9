//! The subcommand `status`.

ghost use Rattle.std.specs.Prelude.{◌≡◌, ◌∷◌, [], Some, IfOk, IfErr, codes, map, slice_get};
ghost use Rattle.clap.specs.Simple.{app_of};
ghost use Rattle.desk_options.specs.CommandLine.{nodes_rule, port_rule, status_app};
ghost use Rattle.desk_options.specs.CommandLine.{AsksFor, AskForNothing, OnRefused};
ghost use Rattle.desk_options.specs.Commands.{AddsRules};
ghost use Rattle.desk_options.specs.declared.command_line.port.TheConstants.{MOST_GROUP_PORT};

use super::network::{session_key_found, text_found, with_hosts};
use super::port::{MOST_GROUP_PORT, port_argument, port_found};
use super::{
    HelpTexts, Options, OptionsFault, StatusOptions, nodes_argument, nodes_found, read_words,
    subcommand, with_argument,
};
use clap::Command;
use std::alloc::{AllocError, Global};

/// A command with the arguments of `status`: the group's first port and its number of nodes.
fn with_status<'a>(
    alloc: Global,
    command: Result<Command<'a>, AllocError>,
) -> Result<Command<'a>, AllocError>
    ensures { AddsRules command.entry (port_rule MOST_GROUP_PORT ∷ nodes_rule ∷ []) result }
{
    let help = "The group's first port, from 1024 to 65000";
    let ported = with_argument(command, port_argument(alloc, MOST_GROUP_PORT, help));
    with_argument(ported, nodes_argument(alloc))
}

/// `status`, with its arguments.
pub(crate) fn status_command<'a>(alloc: Global) -> Result<Command<'a>, AllocError>
    ensures { IfOk result (λ c. app_of c ≡ status_app) }
{
    let texts = HelpTexts {
        bin_name: "desk status",
        about: "Asks every node of a group for its place, and prints a line for each",
        after_help: "\
The nodes are those of `desk serve` or `desk cluster`, which were given --port PORT: node I is asked at port
PORT + 10 + I of this host, or of the I-th of --hosts. One that is silent for 3 seconds is down. Those that are up are
asked once more at the end.
The exit status is 0 where more than half of the nodes are at the greatest place that any node reported, and else 1.

Example: desk status --port 4000 --nodes 3",
    };
    let command = with_status(alloc, subcommand(alloc, "status", texts));
    with_hosts(alloc, command)
}

/// `status` asks for a first port and a number of nodes.
pub(crate) fn status_options(alloc: Global, words: &[&str]) -> Result<Options, OptionsFault>
    requires { slice_get (map (λ s. s.now) words.now) 0 ≡ Some (codes "status") }
    ensures asked { IfOk result (AsksFor (map (λ s. s.now) words.now)) }
    ensures refused { IfErr result (λ f. OnRefused f (AskForNothing (map (λ s. s.now) words.now))) }
{
    let matches = read_words(alloc, status_command(alloc), words)?;
    let nodes = nodes_found(alloc, &matches)?;
    let port = port_found(alloc, &matches, MOST_GROUP_PORT)?;
    let hosts = text_found(alloc, &matches, "hosts")?;
    let key = session_key_found(alloc, &matches)?;
    Ok(Options::Status(StatusOptions {
        nodes,
        port,
        hosts,
        key,
    }))
}
