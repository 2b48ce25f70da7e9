//! The versions of packets.

ghost use Rattle.std.specs.Prelude.{◌≡◌, ◌+◌, ◌∷◌, []};
ghost use Rattle.std.specs.List.{list_any};
ghost use Rattle.desk_codec.specs.Version.{is_new_verb, is_new_entry, entries_of, is_new_place, places_of};
ghost use Rattle.desk_codec.specs.Version.{most_in, is_place_in, needs_two, version_by, version_of, is_version};

use desk_types::limits::{FIRST_LOG_ENTRIES, LOG_ENTRIES};
use desk_types::{Command, Entry, Message};

/// Whether a packet can have this version.
pub(crate) fn is_version(version: u8) -> bool
    ensures { result ≡ is_version version }
{
    version == 1 || version == 2
}

/// Whether a command is of a verb that came with version 2.
fn is_new_verb(command: &Command) -> bool
    ensures { result ≡ is_new_verb command.now }
{
    match command {
        Command::StandBy { .. } => true,
        Command::StandDown { .. } => true,
        Command::Replace { .. } => true,
        _ => false,
    }
}

/// Whether one of the entries has a command of a verb that came with version 2.
pub fn has_new_verb(entries: &[Entry]) -> bool
    ensures { result ≡ list_any is_new_entry entries.now }
{
    entries.iter().any(|entry| is_new_verb(&entry.command))
}

/// Whether a message carries a command of a verb that came with version 2.
fn has_new_entry(message: &Message) -> bool
    ensures { result ≡ list_any is_new_entry (entries_of message.now) }
{
    match message {
        Message::Prepare { entry, .. } => is_new_verb(&entry.command),
        Message::DoViewChange { log, .. } => has_new_verb(log.as_slice()),
        Message::StartView { log, .. } => has_new_verb(log.as_slice()),
        Message::NewState { entries, .. } => has_new_verb(entries.as_slice()),
        _ => false,
    }
}

/// The most that a packet of this version tells of a place, a commit, a base or a count.
fn most_in(version: u8) -> u64
    ensures { result ≡ most_in version }
{
    if version == 2 {
        LOG_ENTRIES
    } else {
        FIRST_LOG_ENTRIES
    }
}

/// Whether a place, a commit, a base or a count is within the range of a packet of this version.
pub(crate) fn is_place_in(version: u8, place: u64) -> bool
    ensures { result ≡ is_place_in version place }
{
    place <= most_in(version)
}

/// Whether a place is past the logs of version 1.
pub(crate) fn is_new_place(place: u64) -> bool
    ensures { result ≡ is_new_place place }
{
    place > FIRST_LOG_ENTRIES
}

/// Whether one of two places is past the logs of version 1.
pub(crate) fn is_one_new(place: u64, other: u64) -> bool
    ensures { result ≡ list_any is_new_place (place ∷ other ∷ []) }
{
    is_new_place(place) || is_new_place(other)
}

/// Whether a base, a commit or a count is past the logs of version 1, or the base and the count together are.
pub(crate) fn is_any_new(base: u64, commit: u64, count: u64) -> bool
    ensures { result ≡ list_any is_new_place (base ∷ commit ∷ count ∷ (base + count) ∷ []) }
{
    if is_new_place(base) || is_new_place(commit) || is_new_place(count) {
        return true;
    }
    is_new_place(base + count)
}

/// Whether a message tells a place that is past the logs of version 1.
fn has_new_place(message: &Message) -> bool
    ensures { result ≡ list_any is_new_place (places_of message.now) }
{
    match message {
        Message::Prepare { place, commit, .. } => is_one_new(*place, *commit),
        Message::PrepareOk { place, .. } => is_new_place(*place),
        Message::Commit { commit, .. } => is_new_place(*commit),
        Message::StartViewChange { .. } => false,
        Message::DoViewChange { commit, log, .. } => {
            is_one_new(*commit, log.as_slice().len() as u64)
        }
        Message::StartView { commit, log, .. } => is_one_new(*commit, log.as_slice().len() as u64),
        Message::GetState { base, .. } => is_new_place(*base),
        Message::NewState {
            base,
            commit,
            entries,
            ..
        } => is_any_new(*base, *commit, entries.as_slice().len() as u64),
    }
}

/// Whether a message tells such a place, or carries a command of a verb that came with version 2.
fn needs_two(message: &Message) -> bool
    ensures { result ≡ needs_two message.now }
{
    has_new_place(message) || has_new_entry(message)
}

/// The version of a packet, by whether it needs version 2.
pub(crate) fn version_by(needs_two: bool) -> u8
    ensures { result ≡ version_by needs_two }
{
    if needs_two { 2 } else { 1 }
}

/// The version of a message's spelling: 2 where it tells or carries what came with it, or 1.
pub(crate) fn version_of(message: &Message) -> u8
    ensures { result ≡ version_of message.now }
{
    version_by(needs_two(message))
}
