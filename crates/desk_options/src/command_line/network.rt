//! The options by which nodes are reached on several hosts: `--hosts`, `--host`, `--key` and `--client-key`.

ghost use Rattle.std.specs.Prelude.{◌≡◌, ◌∷◌, [], false, IfOk, IfErr, codes, option_map, string_bytes};
ghost use Rattle.clap.specs.Matches.{found_of};
ghost use Rattle.clap.specs.Walk.{rows_of, rule_of};
ghost use Rattle.desk_options.specs.CommandLine.{FindsText, FindsSessionKey, text_option_rule};
ghost use Rattle.desk_options.specs.Commands.{AddsRule, AddsRules};
ghost use Rattle.desk_options.specs.declared.command_line.OptionsFault.TheVariants as faults;

use super::{OptionsFault, with_argument};
use clap::{Arg, ArgMatches, Command};
use std::alloc::{AllocError, Global};

/// An option of this name that may be left out, any text, with what help says of it.
fn text_option<'a>(alloc: Global, name: &'a str, help: &'a str) -> Arg<'a>
    ensures rule { rule_of result ≡ text_option_rule name.now }
    ensures local { result.global ≡ false }
{
    Arg::new(alloc, name).long(name).help(help)
}

/// A command with an option of this name that may be left out, any text, and what help says of it.
pub(crate) fn with_text_option<'a>(
    alloc: Global,
    command: Result<Command<'a>, AllocError>,
    name: &'a str,
    help: &'a str,
) -> Result<Command<'a>, AllocError>
    ensures { AddsRule command.entry (text_option_rule name.now) result }
{
    with_argument(command, text_option(alloc, name, help))
}

/// A command with the options of a group on several hosts: `--hosts`, `--key` and `--client-key`.
pub(crate) fn with_hosts<'a>(
    alloc: Global,
    command: Result<Command<'a>, AllocError>,
) -> Result<Command<'a>, AllocError>
    ensures { AddsRules command.entry
        (text_option_rule (codes "hosts") ∷ text_option_rule (codes "key")
        ∷ text_option_rule (codes "client-key") ∷ []) result }
{
    let help = "The hosts of the nodes, in their order, with commas between; else 127.0.0.1";
    let hosted = with_text_option(alloc, command, "hosts", help);
    let help = "The file of the key of nodes, and of clients where they have none of their own";
    let keyed = with_text_option(alloc, hosted, "key", help);
    let help = "The file of the key of clients, where they have one of their own";
    with_text_option(alloc, keyed, "client-key", help)
}

/// The text that was given for an option, where one was.
pub(crate) fn text_found(
    alloc: Global,
    matches: &ArgMatches<'_>,
    name: &str,
) -> Result<Option<String>, OptionsFault>
    ensures found { IfOk result (λ text.
        FindsText (rows_of (found_of matches.now)) name.now (option_map (λ t. string_bytes t) text)) }
    ensures refused { IfErr result (λ f. f ≡ faults.WantOfMemory) }
{
    match matches.get_str(name) {
        Some(text) => Ok(Some(String::from_str(alloc, text)?)),
        None => Ok(None),
    }
}

/// The key of sessions: that of clients, or else that of nodes.
pub(crate) fn session_key_found(
    alloc: Global,
    matches: &ArgMatches<'_>,
) -> Result<Option<String>, OptionsFault>
    ensures found { IfOk result (λ name.
        FindsSessionKey (rows_of (found_of matches.now)) (option_map (λ n. string_bytes n) name)) }
    ensures refused { IfErr result (λ f. f ≡ faults.WantOfMemory) }
{
    match text_found(alloc, matches, "client-key")? {
        Some(name) => Ok(Some(name)),
        None => text_found(alloc, matches, "key"),
    }
}
