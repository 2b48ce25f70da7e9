//! The command line, as `clap` reads it.

ghost use Rattle.std.specs.Prelude.{◌≡◌, ◌≤◌, ◌∷◌, [], ℕ, List, false, Some, IfOk, IfErr, codes, map, slice_get};
ghost use Rattle.clap.specs.Matches.{found_of};
ghost use Rattle.clap.specs.Simple.{app_of, new_app};
ghost use Rattle.clap.specs.Values.{kind_of};
ghost use Rattle.clap.specs.Walk.{rows_of, rule_of};
ghost use Rattle.std.specs.Str.{str_to_ascii_lowercase};
ghost use Rattle.desk_types.specs.Identifier.{IsDomain};
ghost use Rattle.desk_types.specs.declared.limits.TheConstants.{LAST_NUMBER};
ghost use Rattle.desk_options.specs.CommandLine.{domain_rule, nodes_rule, replay_app, world_app};
ghost use Rattle.desk_options.specs.Commands.{AddsRule, AddsRules, ReadsWords};
ghost use Rattle.desk_options.specs.CommandLine.{FindsDomain, SpellsNodes, FindsNodes, AsksFor, AskForNothing};
ghost use Rattle.desk_options.specs.CommandLine.{OnRefused, SpellsUpTo};
ghost use Rattle.desk_options.specs.Faults.{IsRefusalBy};
ghost use Rattle.desk_options.specs.declared.command_line.OptionsFault.TheVariants as faults;

mod answer;
mod choice;
mod cluster;
mod epochs;
mod log;
mod network;
mod page;
mod port;
mod send;
mod serve;
mod status;

use crate::version::VERSION;
use answer::{answer_command, answer_options};
pub use choice::{
    AnswerOptions, ClusterOptions, FollowOptions, LogOptions, Options, PageOptions, ReplayOptions,
    SendOptions, ServeOptions, StatusOptions, WorldOptions,
};
use clap::error::ErrorKind;
use clap::{Arg, ArgMatches, Command, Error};
use cluster::{cluster_command, cluster_options};
use desk_types::Domain;
use log::{log_command, log_options};
use page::{page_command, page_options};
pub use port::{LEAST_PORT, MOST_GROUP_PORT, MOST_PORT, MOST_SESSION_PORT};
use send::{send_command, send_options};
use serve::{serve_command, serve_options};
use status::{status_command, status_options};
use std::alloc::{AllocError, AllocFailed, Global};

/// What is printed of a domain that is none.
const BAD_DOMAIN: &str = "\
desk: bad domain
desk: a domain is up to 128 letters, digits, hyphens and dots, with no dot at an end or beside another
";

/// Why a command line gave no options.
#[derive(Drop)]
pub enum OptionsFault {
    /// The allocator refused memory.
    WantOfMemory,
    /// The command line is refused, or asks for help. The text, whole lines, is for the standard error.
    Refused { text: String },
}

impl From<AllocError> for OptionsFault {
    ghost use Rattle.std.specs.Prelude.{◌≡◌};
    ghost use Rattle.desk_options.specs.declared.command_line.OptionsFault.TheVariants as faults;

    ghost from_gives = { λ _ f. f ≡ faults.WantOfMemory };

    fn from(_refused: AllocError) -> OptionsFault {
        OptionsFault::WantOfMemory
    }
}

impl<T: Drop> From<AllocFailed<T>> for OptionsFault {
    ghost use Rattle.std.specs.Prelude.{◌≡◌};
    ghost use Rattle.desk_options.specs.declared.command_line.OptionsFault.TheVariants as faults;

    ghost from_gives = { λ _ f. f ≡ faults.WantOfMemory };

    fn from(_refused: AllocFailed<T>) -> OptionsFault {
        OptionsFault::WantOfMemory
    }
}

impl OptionsFault {
    /// A refusal with this text.
    pub(crate) fn refused(alloc: Global, text: &str) -> OptionsFault
        ensures { IsRefusalBy text.now result }
    {
        match String::from_str(alloc, text) {
            Ok(text) => OptionsFault::Refused { text },
            Err(_) => OptionsFault::WantOfMemory,
        }
    }
}

/// `--domain`, any text.
fn domain_argument<'a>(alloc: Global) -> Arg<'a>
    ensures rule { rule_of result ≡ domain_rule }
    ensures local { result.global ≡ false }
{
    Arg::new(alloc, "domain")
        .long("domain")
        .required(true)
        .help("The desk's domain, under which it names incidents")
}

/// `--nodes`, a number that fits a byte.
fn nodes_argument<'a>(alloc: Global) -> Arg<'a>
    ensures rule { rule_of result ≡ nodes_rule }
    ensures local { result.global ≡ false }
{
    Arg::new(alloc, "nodes")
        .long("nodes")
        .required(true)
        .value_parser(clap::value_parser!(u8))
        .help("How many nodes the group has, 3 or 5")
}

/// What help tells of a subcommand.
pub(crate) struct HelpTexts<'a> {
    /// How it is called, after the program's name.
    pub(crate) bin_name: &'a str,
    /// What it does.
    pub(crate) about: &'a str,
    /// An example, and what else stands after the options.
    pub(crate) after_help: &'a str,
}

/// A subcommand that has no arguments yet.
// Each step of a function that holds a command is dear to prove.
pub(crate) fn subcommand<'a>(
    alloc: Global,
    name: &'a str,
    texts: HelpTexts<'a>,
) -> Result<Command<'a>, AllocError>
    ensures { IfOk result (λ c. app_of c ≡ new_app name.now) }
{
    let HelpTexts {
        bin_name,
        about,
        after_help,
    } = texts;
    Command::new(alloc, name)
        .about(about)
        .after_help(after_help)
        .bin_name(bin_name)
}

/// A command with one more argument, where there was memory for that command.
// Each way out of a function that holds a command is dear to prove, so commands are made by this one.
pub(crate) fn with_argument<'a>(
    command: Result<Command<'a>, AllocError>,
    argument: Arg<'a>,
) -> Result<Command<'a>, AllocError>
    requires { argument.global ≡ false }
    ensures { AddsRule command.entry (rule_of argument.entry) result }
{
    match command {
        Ok(command) => command.arg(argument),
        Err(refused) => Err(refused),
    }
}

/// `replay`, with its one argument, the domain.
fn replay_command<'a>(alloc: Global) -> Result<Command<'a>, AllocError>
    ensures { IfOk result (λ c. app_of c ≡ replay_app) }
{
    let texts = HelpTexts {
        bin_name: "desk replay",
        about: "Answers the documents on the standard input, one a line, on one log in memory",
        after_help: "Example: desk replay --domain desk.example < examples/first-incident.jsonl",
    };
    with_argument(subcommand(alloc, "replay", texts), domain_argument(alloc))
}

/// A command with the arguments of a group, `--nodes` and `--domain`.
fn with_group<'a>(
    alloc: Global,
    command: Result<Command<'a>, AllocError>,
) -> Result<Command<'a>, AllocError>
    ensures { AddsRules command.entry (nodes_rule ∷ domain_rule ∷ []) result }
{
    let command = with_argument(command, nodes_argument(alloc));
    with_argument(command, domain_argument(alloc))
}

/// `world`, with the arguments of a group.
fn world_command<'a>(alloc: Global) -> Result<Command<'a>, AllocError>
    ensures { IfOk result (λ c. app_of c ≡ world_app) }
{
    let texts = HelpTexts {
        bin_name: "desk world",
        about: "Runs a group of nodes in memory through the events on the standard input, one a line",
        after_help: "Example: desk world --nodes 3 --domain desk.example < examples/world-commit.events",
    };
    with_group(alloc, subcommand(alloc, "world", texts))
}

/// The program, of which a subcommand must be asked for.
fn bare_command<'a>(alloc: Global) -> Result<Command<'a>, AllocError> {
    let command = Command::new(alloc, "desk")
        .about("A dispatch desk for emergency incidents")
        .version(VERSION)
        .bin_name("desk")?;
    Ok(
        command
            .no_binary_name(true)
            .subcommand_required(true)
            .arg_required_else_help(true),
    )
}

/// A command with one more subcommand, where there was memory for both.
fn with_subcommand<'a>(
    command: Result<Command<'a>, AllocError>,
    more: Result<Command<'a>, AllocError>,
) -> Result<Command<'a>, AllocError> {
    match (command, more) {
        (Ok(command), Ok(more)) => command.subcommand(more),
        _ => Err(AllocError),
    }
}

/// The program, with its subcommands.
fn desk_command<'a>(alloc: Global) -> Result<Command<'a>, AllocError> {
    let command = with_subcommand(bare_command(alloc), replay_command(alloc));
    let command = with_subcommand(command, world_command(alloc));
    let command = with_subcommand(command, answer_command(alloc));
    let command = with_subcommand(command, serve_command(alloc));
    let command = with_subcommand(command, cluster_command(alloc));
    let command = with_subcommand(command, send_command(alloc));
    let command = with_subcommand(command, status_command(alloc));
    let command = with_subcommand(command, page_command(alloc));
    with_subcommand(command, log_command(alloc))
}

/// The refusal of `clap`, in its words.
fn refused_by_clap(alloc: Global, error: Error) -> OptionsFault
    ensures { kind_of error ≡ ErrorKind.OutOfMemory → result ≡ faults.WantOfMemory }
{
    match error.kind() {
        ErrorKind::OutOfMemory => OptionsFault::WantOfMemory,
        _ => match error.to_string(alloc) {
            Ok(text) => OptionsFault::Refused { text },
            Err(_) => OptionsFault::WantOfMemory,
        },
    }
}

/// What a command finds in words, its name the first of them, where there was memory for that command. Others are
/// refused in the words of `clap`.
pub(crate) fn read_words<'a>(
    alloc: Global,
    command: Result<Command<'a>, AllocError>,
    words: &'a [&'a str],
) -> Result<ArgMatches<'a>, OptionsFault>
    ensures { ReadsWords command.entry (map (λ s. s.now) words.now) result }
{
    let Ok(command) = command else {
        return Err(OptionsFault::WantOfMemory);
    };
    match command.try_get_matches_from(words) {
        Ok(matches) => Ok(matches),
        Err(error) => Err(refused_by_clap(alloc, error)),
    }
}

/// The refusal of words that do not begin with a subcommand.
fn refused_words(alloc: Global, words: &[&str]) -> OptionsFault {
    let Ok(command) = desk_command(alloc) else {
        return OptionsFault::WantOfMemory;
    };
    match command.try_get_matches_from(words) {
        Ok(_) => OptionsFault::refused(alloc, "desk: a subcommand comes first\n"),
        Err(error) => refused_by_clap(alloc, error),
    }
}

/// The domain that a text spells.
fn domain_of(alloc: Global, text: &str) -> Result<Domain, OptionsFault>
    ensures found { IfOk result (λ d. IsDomain text.now × (d ≡ str_to_ascii_lowercase text.now)) }
    ensures refused { IfErr result (λ f. OnRefused f (IsDomain text.now → ⊥)) }
{
    match Domain::new(alloc, text) {
        Ok(domain) => Ok(domain),
        Err(refusal) => Err(match refusal.unless_of_memory() {
            Ok(_) => OptionsFault::refused(alloc, BAD_DOMAIN),
            Err(_) => OptionsFault::WantOfMemory,
        }),
    }
}

/// `replay` asks for a domain.
fn replay_options(alloc: Global, words: &[&str]) -> Result<Options, OptionsFault>
    requires { slice_get (map (λ s. s.now) words.now) 0 ≡ Some (codes "replay") }
    ensures asked { IfOk result (AsksFor (map (λ s. s.now) words.now)) }
    ensures refused { IfErr result (λ f. OnRefused f (AskForNothing (map (λ s. s.now) words.now))) }
{
    let matches = read_words(alloc, replay_command(alloc), words)?;
    let domain = domain_found(alloc, &matches)?;
    Ok(Options::Replay(ReplayOptions { domain }))
}

/// What is printed of another number of nodes.
const NODES_FAULT: &str = "desk: nodes must be 3 or 5\n";

/// The number of nodes that a text spells.
fn nodes_of(alloc: Global, text: &str) -> Result<u8, OptionsFault>
    ensures found { IfOk result (λ n. SpellsNodes text.now n) }
    ensures refused { IfErr result (λ f. OnRefused f ((n : ℕ) → SpellsNodes text.now n → ⊥)) }
{
    match text.parse::<i64>() {
        Ok(3) => Ok(3),
        Ok(5) => Ok(5),
        _ => Err(OptionsFault::refused(alloc, NODES_FAULT)),
    }
}

/// The number that a text spells, from 1 to the greatest that may be given, or a refusal by this line.
pub(crate) fn number_of(
    alloc: Global,
    text: &str,
    greatest: u64,
    fault: &str,
) -> Result<u64, OptionsFault>
    requires { greatest ≤ LAST_NUMBER }
    ensures found { IfOk result (λ number. SpellsUpTo text.now greatest number) }
    ensures refused { IfErr result (λ f. OnRefused f ((number : ℕ) → SpellsUpTo text.now greatest number → ⊥)) }
{
    match text.parse::<i64>() {
        Ok(number) if 1 <= number && number <= greatest as i64 => Ok(number as u64),
        _ => Err(OptionsFault::refused(alloc, fault)),
    }
}

/// The number of nodes that was given.
fn nodes_found(alloc: Global, matches: &ArgMatches<'_>) -> Result<u8, OptionsFault>
    ensures found { IfOk result (FindsNodes (rows_of (found_of matches.now))) }
    ensures refused { IfErr result (λ f. OnRefused f
        ((n : ℕ) → FindsNodes (rows_of (found_of matches.now)) n → ⊥)) }
{
    match matches.get_str("nodes") {
        Some(text) => nodes_of(alloc, text),
        None => Err(OptionsFault::refused(alloc, NODES_FAULT)),
    }
}

/// The domain that was given.
fn domain_found(alloc: Global, matches: &ArgMatches<'_>) -> Result<Domain, OptionsFault>
    ensures found { IfOk result (FindsDomain (rows_of (found_of matches.now))) }
    ensures refused { IfErr result (λ f. OnRefused f
        ((domain : List ℕ) → FindsDomain (rows_of (found_of matches.now)) domain → ⊥)) }
{
    match matches.get_str("domain") {
        Some(text) => domain_of(alloc, text),
        None => Err(OptionsFault::refused(alloc, BAD_DOMAIN)),
    }
}

/// `world` asks for a number of nodes and a domain.
fn world_options(alloc: Global, words: &[&str]) -> Result<Options, OptionsFault>
    requires { slice_get (map (λ s. s.now) words.now) 0 ≡ Some (codes "world") }
    ensures asked { IfOk result (AsksFor (map (λ s. s.now) words.now)) }
    ensures refused { IfErr result (λ f. OnRefused f (AskForNothing (map (λ s. s.now) words.now))) }
{
    let matches = read_words(alloc, world_command(alloc), words)?;
    let nodes = nodes_found(alloc, &matches)?;
    let domain = domain_found(alloc, &matches)?;
    Ok(Options::World(WorldOptions { nodes, domain }))
}

/// What the words after the program's name ask for. They are refused, with a text for the standard error, where they
/// begin neither with a subcommand nor with `--version` or `-V`, where `clap` refuses the words of that subcommand (a
/// call for help among them, and a number out of its range: a port, seconds, a place, places of an epoch, a token),
/// where the value of `--nodes` is neither 3 nor 5, where that of `--node` is not below it, and where that of
/// `--domain` is no domain. `send` is refused `--seconds` without `--nodes`, and with it a port that is no group's.
pub fn options(alloc: Global, words: &[&str]) -> Result<Options, OptionsFault>
    ensures asked { IfOk result (AsksFor (map (λ s. s.now) words.now)) }
    // Words are refused only where they ask for nothing.
    ensures refused { IfErr result (λ f. OnRefused f (AskForNothing (map (λ s. s.now) words.now))) }
{
    match words.first() {
        Some(first) if *first == "replay" => replay_options(alloc, words),
        Some(first) if *first == "world" => world_options(alloc, words),
        Some(first) if *first == "answer" => answer_options(alloc, words),
        Some(first) if *first == "serve" => serve_options(alloc, words),
        Some(first) if *first == "cluster" => cluster_options(alloc, words),
        Some(first) if *first == "send" => send_options(alloc, words),
        Some(first) if *first == "status" => status_options(alloc, words),
        Some(first) if *first == "page" => page_options(alloc, words),
        Some(first) if *first == "log" => log_options(alloc, words),
        Some(first) if *first == "--version" => Ok(Options::Version),
        Some(first) if *first == "-V" => Ok(Options::Version),
        _ => Err(refused_words(alloc, words)),
    }
}
