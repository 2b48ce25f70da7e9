//! The subcommand `answer`.

ghost use Rattle.std.specs.Prelude.{◌≡◌, ℕ, List, false, Some, IfOk, IfErr, codes, map, slice_get, string_bytes};
ghost use Rattle.clap.specs.Matches.{found_of};
ghost use Rattle.clap.specs.Simple.{app_of};
ghost use Rattle.clap.specs.Walk.{rows_of, rule_of};
ghost use Rattle.desk_options.specs.CommandLine.{node_rule, file_rule, answer_app, SpellsNode, FindsNode};
ghost use Rattle.desk_options.specs.CommandLine.{FindsOwner, FindsFile, AsksFor, AskForNothing, OnRefused};
ghost use Rattle.desk_types.specs.declared.owner.Owner.{Owner as NodeOwner};

use super::{
    AnswerOptions, HelpTexts, Options, OptionsFault, domain_found, nodes_found, read_words,
    subcommand, with_argument, with_group,
};
use clap::{Arg, ArgMatches, Command};
use desk_types::Owner;
use std::alloc::{AllocError, Global};

/// `--node`, a number that fits a byte.
pub(crate) fn node_argument<'a>(alloc: Global) -> Arg<'a>
    ensures rule { rule_of result ≡ node_rule }
    ensures local { result.global ≡ false }
{
    Arg::new(alloc, "node")
        .long("node")
        .required(true)
        .value_parser(clap::value_parser!(u8))
        .help("The node's number, from 0")
}

/// `--file`, any text.
pub(crate) fn file_argument<'a>(alloc: Global) -> Arg<'a>
    ensures rule { rule_of result ≡ file_rule }
    ensures local { result.global ≡ false }
{
    Arg::new(alloc, "file").long("file").required(true).help(
        "The SQLite file that keeps the node's state, made where it is not there",
    )
}

/// `answer`, with the arguments of a group, of a node and of its file.
pub(crate) fn answer_command<'a>(alloc: Global) -> Result<Command<'a>, AllocError>
    ensures { IfOk result (λ c. app_of c ≡ answer_app) }
{
    let texts = HelpTexts {
        bin_name: "desk answer",
        about: "Answers the packets on the standard input as one node, whose state a file keeps",
        after_help: "\
Packets come as frames, as docs/FORMATS.md spells them, and the packets that the node sends go out so.

Example: desk answer --node 1 --nodes 3 --domain desk.example --file node-1.db < examples/answer/prepare.bin",
    };
    let command = with_argument(subcommand(alloc, "answer", texts), node_argument(alloc));
    with_argument(with_group(alloc, command), file_argument(alloc))
}

/// The refusal of a node's number.
fn no_such_node(alloc: Global) -> OptionsFault {
    OptionsFault::refused(alloc, "desk: node must be below nodes\n")
}

/// The node's number that a text spells.
fn spelled_node(alloc: Global, text: &str, nodes: u8) -> Result<u8, OptionsFault>
    ensures found { IfOk result (λ i. SpellsNode text.now nodes i) }
    ensures refused { IfErr result (λ f. OnRefused f ((i : ℕ) → SpellsNode text.now nodes i → ⊥)) }
{
    match text.parse::<i64>() {
        Ok(node) if 0 <= node && node < nodes as i64 => Ok(node as u8),
        _ => Err(no_such_node(alloc)),
    }
}

/// The node's number that was given.
fn node_found(alloc: Global, matches: &ArgMatches<'_>, nodes: u8) -> Result<u8, OptionsFault>
    ensures found { IfOk result (FindsNode (rows_of (found_of matches.now)) nodes) }
    ensures refused { IfErr result (λ f. OnRefused f
        ((i : ℕ) → FindsNode (rows_of (found_of matches.now)) nodes i → ⊥)) }
{
    match matches.get_str("node") {
        Some(text) => spelled_node(alloc, text, nodes),
        None => Err(no_such_node(alloc)),
    }
}

/// The owner of the node's state that was given.
pub(crate) fn owner_found(alloc: Global, matches: &ArgMatches<'_>) -> Result<Owner, OptionsFault>
    ensures found { IfOk result (FindsOwner (rows_of (found_of matches.now))) }
    ensures refused { IfErr result (λ f. OnRefused f
        ((owner : NodeOwner) → FindsOwner (rows_of (found_of matches.now)) owner → ⊥)) }
{
    let n = nodes_found(alloc, matches)?;
    let id = node_found(alloc, matches, n)?;
    let domain = domain_found(alloc, matches)?;
    Ok(Owner { id, n, domain })
}

/// The file that was given.
pub(crate) fn file_found(alloc: Global, matches: &ArgMatches<'_>) -> Result<String, OptionsFault>
    ensures found { IfOk result (λ file. FindsFile (rows_of (found_of matches.now)) (string_bytes file)) }
    ensures refused { IfErr result (λ f. OnRefused f
        ((file : List ℕ) → FindsFile (rows_of (found_of matches.now)) file → ⊥)) }
{
    match matches.get_str("file") {
        Some(file) => Ok(String::from_str(alloc, file)?),
        None => Err(OptionsFault::refused(alloc, "desk: no file\n")),
    }
}

/// `answer` asks for a node of a group, and for the file of its state.
pub(crate) fn answer_options(alloc: Global, words: &[&str]) -> Result<Options, OptionsFault>
    requires { slice_get (map (λ s. s.now) words.now) 0 ≡ Some (codes "answer") }
    ensures asked { IfOk result (AsksFor (map (λ s. s.now) words.now)) }
    ensures refused { IfErr result (λ f. OnRefused f (AskForNothing (map (λ s. s.now) words.now))) }
{
    let matches = read_words(alloc, answer_command(alloc), words)?;
    let owner = owner_found(alloc, &matches)?;
    let file = file_found(alloc, &matches)?;
    Ok(Options::Answer(AnswerOptions { owner, file }))
}
