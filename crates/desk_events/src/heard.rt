//! How far the history goes, as other nodes say.

ghost use Rattle.std.specs.Prelude.{◌≡◌};
ghost use Rattle.desk_events.specs.Heard.{commit_in, heard_point, point};

use desk_types::limits::LOG_ENTRIES;
use desk_types::{EpochPacket, Message};

/// A place of an epoch's log as a number: later places of the epoch have greater ones, and all of later epochs.
pub(crate) fn point(epoch: u64, place: u64) -> u64
    ensures { result ≡ point epoch place }
{
    epoch.saturating_mul(LOG_ENTRIES + 1).saturating_add(place)
}

/// The commit that a message tells, or 0 where it tells none.
fn commit_in(message: &Message) -> u64
    ensures { result ≡ commit_in message.now }
{
    match message {
        Message::Prepare { commit, .. } => *commit,
        Message::Commit { commit, .. } => *commit,
        Message::DoViewChange { commit, .. } => *commit,
        Message::StartView { commit, .. } => *commit,
        Message::NewState { commit, .. } => *commit,
        Message::PrepareOk { .. } | Message::StartViewChange { .. } | Message::GetState { .. } => 0,
    }
}

/// How far a packet says that the history goes: its epoch is there, and the commit that it tells.
pub(crate) fn heard_point(packet: &EpochPacket) -> u64
    ensures { result ≡ heard_point packet.now }
{
    point(packet.epoch, commit_in(packet.packet.message()))
}
