//! The subcommand `cluster`.

ghost use Rattle.std.specs.Prelude.{◌≡◌, Some, IfOk, IfErr, codes, map, slice_get};
ghost use Rattle.clap.specs.Simple.{app_of};
ghost use Rattle.desk_options.specs.CommandLine.{cluster_app, AsksFor, AskForNothing, OnRefused};

use super::epochs::{epoch_places_argument, epoch_places_found};
use super::port::{MOST_GROUP_PORT, port_found, with_network_group};
use super::{
    ClusterOptions, HelpTexts, Options, OptionsFault, domain_found, nodes_found, read_words,
    subcommand, with_argument,
};
use clap::Command;
use std::alloc::{AllocError, Global};

/// `cluster`, with the arguments of a group on the network, and how many places an epoch has.
pub(crate) fn cluster_command<'a>(alloc: Global) -> Result<Command<'a>, AllocError>
    ensures { IfOk result (λ c. app_of c ≡ cluster_app) }
{
    let texts = HelpTexts {
        bin_name: "desk cluster",
        about: "Runs a whole group of nodes on the network of this host, with their states in memory",
        after_help: "\
Node I, from 0, takes the other nodes at port PORT + I, and sessions at port PORT + 10 + I, all on 127.0.0.1.
All end with the standard input, and their states with them.

Example: desk cluster --nodes 3 --domain desk.example --port 4000",
    };
    let grouped = with_network_group(alloc, subcommand(alloc, "cluster", texts));
    with_argument(grouped, epoch_places_argument(alloc))
}

/// `cluster` asks for a number of nodes, a domain, a first port, and how many places an epoch has.
pub(crate) fn cluster_options(alloc: Global, words: &[&str]) -> Result<Options, OptionsFault>
    requires { slice_get (map (λ s. s.now) words.now) 0 ≡ Some (codes "cluster") }
    ensures asked { IfOk result (AsksFor (map (λ s. s.now) words.now)) }
    ensures refused { IfErr result (λ f. OnRefused f (AskForNothing (map (λ s. s.now) words.now))) }
{
    let matches = read_words(alloc, cluster_command(alloc), words)?;
    let nodes = nodes_found(alloc, &matches)?;
    let domain = domain_found(alloc, &matches)?;
    let port = port_found(alloc, &matches, MOST_GROUP_PORT)?;
    let epoch_places = epoch_places_found(alloc, &matches)?;
    Ok(Options::Cluster(ClusterOptions {
        nodes,
        domain,
        port,
        epoch_places,
    }))
}
