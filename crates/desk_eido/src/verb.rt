//! The verbs of commands.

ghost use Rattle.std.specs.Prelude.{◌≡◌};
ghost use Rattle.desk_eido.specs.Members.{GivesResult};
ghost use Rattle.desk_eido.specs.Reading.{verb_of, command_of};
ghost use Rattle.desk_eido.specs.Document.{placed_members};

use crate::copied::Document;
use crate::group_verbs::replace_of;
use crate::incident_verbs::{
    add_call_of, clear_of, link_of, merge_of, note_of, open_of, reopen_of, split_of, unlink_of,
};
use crate::unit_verbs::{
    assign_of, release_of, set_status_of, sign_off_of, sign_on_of, stand_by_of, stand_down_of,
};
use desk_types::{Command, Refusal, Verb};
use std::alloc::Global;

/// The verb of a word.
#[tactic(auto, unfolding(crate::specs::Reading::verb_of))]
pub(crate) fn verb_of(word: &str) -> Option<Verb>
    ensures { result ≡ verb_of word.now }
{
    match word {
        "open" => Some(Verb::Open),
        "add_call" => Some(Verb::AddCall),
        "link" => Some(Verb::Link),
        "unlink" => Some(Verb::Unlink),
        "merge" => Some(Verb::Merge),
        "split" => Some(Verb::Split),
        "clear" => Some(Verb::Clear),
        "reopen" => Some(Verb::Reopen),
        "note" => Some(Verb::Note),
        "sign_on" => Some(Verb::SignOn),
        "sign_off" => Some(Verb::SignOff),
        "assign" => Some(Verb::Assign),
        "status" => Some(Verb::SetStatus),
        "release" => Some(Verb::Release),
        "stand_by" => Some(Verb::StandBy),
        "stand_down" => Some(Verb::StandDown),
        "replace" => Some(Verb::Replace),
        _ => None,
    }
}

/// The command of a verb, at an instant in whole seconds since 1970.
pub(crate) fn command_of_verb(
    verb: Verb,
    alloc: Global,
    at: i64,
    document: &Document<'_>,
) -> Result<Command, Refusal>
    ensures { GivesResult (λ c. c) result (command_of verb at (placed_members document.now)) }
{
    match verb {
        Verb::Open => open_of(alloc, at, document),
        Verb::AddCall => add_call_of(alloc, at, document),
        Verb::Link => link_of(alloc, at, document),
        Verb::Unlink => unlink_of(alloc, at, document),
        Verb::Merge => merge_of(alloc, at, document),
        Verb::Split => split_of(alloc, at, document),
        Verb::Clear => clear_of(alloc, at, document),
        Verb::Reopen => reopen_of(alloc, at, document),
        Verb::Note => note_of(alloc, at, document),
        Verb::SignOn => sign_on_of(alloc, at, document),
        Verb::SignOff => sign_off_of(alloc, at, document),
        Verb::Assign => assign_of(alloc, at, document),
        Verb::SetStatus => set_status_of(alloc, at, document),
        Verb::Release => release_of(alloc, at, document),
        Verb::StandBy => stand_by_of(alloc, at, document),
        Verb::StandDown => stand_down_of(alloc, at, document),
        Verb::Replace => replace_of(at, document),
    }
}
