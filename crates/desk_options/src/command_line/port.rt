//! The argument `--port`, and those of a group on the network.

ghost use Rattle.std.specs.Prelude.{◌≡◌, ◌∷◌, [], ℕ, false, IfOk, IfErr};
ghost use Rattle.clap.specs.Matches.{found_of};
ghost use Rattle.clap.specs.Walk.{rows_of, rule_of};
ghost use Rattle.desk_options.specs.CommandLine.{nodes_rule, domain_rule, port_rule};
ghost use Rattle.desk_options.specs.CommandLine.{SpellsPort, FindsPort, OnRefused};
ghost use Rattle.desk_options.specs.Commands.{AddsRules};
ghost use Rattle.desk_options.specs.declared.command_line.port.TheConstants.{MOST_GROUP_PORT};

use super::{OptionsFault, with_argument, with_group};
use clap::builder::ValueParser;
use clap::{Arg, ArgMatches, Command};
use desk_types::limits::{MOST_NODES, SESSION_PORTS};
use std::alloc::{AllocError, Global};

/// The least port that a command line may give.
pub const LEAST_PORT: u16 = 1_024;

/// The greatest first port of a group that a command line may give.
pub const MOST_GROUP_PORT: u16 = 65_000;

/// The greatest port of a node's sessions: that of the last node of the largest group.
pub const MOST_SESSION_PORT: u16 = MOST_GROUP_PORT + SESSION_PORTS + MOST_NODES as u16 - 1;

/// The greatest port that there is.
pub const MOST_PORT: u16 = 65_535;

/// The argument `--port`, a number up to this one.
pub(crate) fn port_argument<'a>(alloc: Global, most: u16, help: &'a str) -> Arg<'a>
    ensures rule { rule_of result ≡ port_rule most }
    ensures local { result.global ≡ false }
{
    Arg::new(alloc, "port")
        .long("port")
        .required(true)
        .value_parser(ValueParser::signed(LEAST_PORT as i64, most as i64))
        .help(help)
}

/// A command with the arguments of a group on the network, `--nodes`, `--domain` and `--port`.
pub(crate) fn with_network_group<'a>(
    alloc: Global,
    command: Result<Command<'a>, AllocError>,
) -> Result<Command<'a>, AllocError>
    ensures { AddsRules command.entry (nodes_rule ∷ domain_rule ∷ port_rule MOST_GROUP_PORT ∷ []) result }
{
    let help = "The group's first port, from 1024 to 65000";
    with_argument(
        with_group(alloc, command),
        port_argument(alloc, MOST_GROUP_PORT, help),
    )
}

/// The refusal of a port that is no number, or below or above what may be given.
pub(crate) fn no_such_port(alloc: Global) -> OptionsFault {
    OptionsFault::refused(alloc, "desk: port out of range\n")
}

/// The port that a text spells.
pub(crate) fn port_of(alloc: Global, text: &str, most: u16) -> Result<u16, OptionsFault>
    ensures found { IfOk result (λ port. SpellsPort text.now most port) }
    ensures refused { IfErr result (λ f. OnRefused f ((port : ℕ) → SpellsPort text.now most port → ⊥)) }
{
    match text.parse::<i64>() {
        Ok(port) if LEAST_PORT as i64 <= port && port <= most as i64 => Ok(port as u16),
        _ => Err(no_such_port(alloc)),
    }
}

/// The port that was given.
pub(crate) fn port_found(
    alloc: Global,
    matches: &ArgMatches<'_>,
    most: u16,
) -> Result<u16, OptionsFault>
    ensures found { IfOk result (FindsPort (rows_of (found_of matches.now)) most) }
    ensures refused { IfErr result (λ f. OnRefused f
        ((port : ℕ) → FindsPort (rows_of (found_of matches.now)) most port → ⊥)) }
{
    match matches.get_str("port") {
        Some(text) => port_of(alloc, text, most),
        None => Err(no_such_port(alloc)),
    }
}
