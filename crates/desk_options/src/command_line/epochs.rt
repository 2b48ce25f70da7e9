//! The options of a desk over epochs: `--next`, `--epoch-places` and `--member`.

ghost use Rattle.std.specs.Prelude.{◌≡◌, ◌∷◌, [], ℕ, Option, false, IfOk, IfErr, codes};
ghost use Rattle.clap.specs.Matches.{found_of};
ghost use Rattle.clap.specs.Walk.{rows_of, rule_of};
ghost use Rattle.desk_options.specs.CommandLine.{FindsEpochPlaces, FindsMember, OnRefused};
ghost use Rattle.desk_options.specs.CommandLine.{epoch_places_rule, flag_rule, member_rule};
ghost use Rattle.desk_options.specs.Commands.{AddsRules};

use super::serve::flag_argument;
use super::{OptionsFault, number_of, with_argument};
use clap::builder::ValueParser;
use clap::{Arg, ArgMatches, Command};
use desk_types::limits::{LAST_TOKEN, LOG_ENTRIES};
use std::alloc::{AllocError, Global};

/// `--epoch-places`, which may be left out.
pub(crate) fn epoch_places_argument<'a>(alloc: Global) -> Arg<'a>
    ensures rule { rule_of result ≡ epoch_places_rule }
    ensures local { result.global ≡ false }
{
    Arg::new(alloc, "epoch-places")
        .long("epoch-places")
        .value_parser(ValueParser::signed(1, LOG_ENTRIES as i64))
        .help("For trials: how many places an epoch has at all nodes, 1 to 65536; else 65536")
}

/// `--member`, which may be left out.
fn member_argument<'a>(alloc: Global) -> Arg<'a>
    ensures rule { rule_of result ≡ member_rule }
    ensures local { result.global ≡ false }
{
    Arg::new(alloc, "member")
        .long("member")
        .value_parser(ValueParser::signed(1, LAST_TOKEN as i64))
        .help("The token of a node that takes the place of a lost one, 1 to 1000000000000")
}

/// A command with the options of a node over epochs: `--next`, `--epoch-places` and `--member`.
pub(crate) fn with_epochs<'a>(
    alloc: Global,
    command: Result<Command<'a>, AllocError>,
) -> Result<Command<'a>, AllocError>
    ensures { AddsRules command.entry (flag_rule (codes "next") ∷ epoch_places_rule ∷ member_rule ∷ []) result }
{
    let help = "Makes FILE.1 after a full FILE that has none, as a program of one file leaves it";
    let going = with_argument(command, flag_argument(alloc, "next", help));
    let placed = with_argument(going, epoch_places_argument(alloc));
    with_argument(placed, member_argument(alloc))
}

/// The number of places of an epoch that was given, or else the most.
pub(crate) fn epoch_places_found(
    alloc: Global,
    matches: &ArgMatches<'_>,
) -> Result<u64, OptionsFault>
    ensures found { IfOk result (FindsEpochPlaces (rows_of (found_of matches.now))) }
    ensures refused { IfErr result (λ f. OnRefused f
        ((places : ℕ) → FindsEpochPlaces (rows_of (found_of matches.now)) places → ⊥)) }
{
    let fault = "desk: epoch-places must be 1 to 65536\n";
    match matches.get_str("epoch-places") {
        Some(text) => number_of(alloc, text, LOG_ENTRIES, fault),
        None => Ok(LOG_ENTRIES),
    }
}

/// The token that was given, where one was.
pub(crate) fn member_found(
    alloc: Global,
    matches: &ArgMatches<'_>,
) -> Result<Option<u64>, OptionsFault>
    ensures found { IfOk result (FindsMember (rows_of (found_of matches.now))) }
    ensures refused { IfErr result (λ f. OnRefused f
        ((token : Option ℕ) → FindsMember (rows_of (found_of matches.now)) token → ⊥)) }
{
    let fault = "desk: member must be 1 to 1000000000000\n";
    match matches.get_str("member") {
        Some(text) => Ok(Some(number_of(alloc, text, LAST_TOKEN, fault)?)),
        None => Ok(None),
    }
}
