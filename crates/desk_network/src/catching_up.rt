//! What is announced of a node that lacks entries.

ghost use Rattle.std.specs.Prelude.{◌≡◌};
ghost use Rattle.desk_network.specs.Lacking.{asks_in_view, is_hint, is_step, lacks_after};

use desk_events::EventLog;
use desk_types::limits::LOG_ENTRIES;
use desk_types::{EpochPacket, Message, Purpose};
use std::sync::Wait;

/// Sees by the packets of a node whether it asks for entries that it lacks.
pub(crate) struct CatchingUp<R> {
    rt: R,
    log: EventLog,
}

// Written out, so that callers need not prove each part's drop.
impl<R: Drop> Drop for CatchingUp<R> {
    fn drop(self) {
        let CatchingUp { rt: _, log: _ } = self;
    }
}

/// Whether an ask is a hint to a node that is behind: who sends it may have heard of a later epoch.
fn is_hint(purpose: Purpose, later: bool) -> bool
    ensures { result ≡ is_hint purpose later }
{
    match purpose {
        Purpose::Ask => !later,
        Purpose::Step | Purpose::Tell => false,
    }
}

/// The place after which a packet asks for what its sender lacks, who may have heard of a later epoch.
fn lacks_after(packet: &EpochPacket, later: bool) -> Option<u64>
    ensures { result ≡ lacks_after packet.now later }
{
    if is_hint(packet.purpose, later) {
        return None;
    }
    match packet.packet.message() {
        Message::GetState { base, .. } => Some(*base),
        _ => None,
    }
}

/// Whether a packet is one by the rules of its epoch.
fn is_step(purpose: Purpose) -> bool
    ensures { result ≡ is_step purpose }
{
    match purpose {
        Purpose::Step => true,
        Purpose::Ask | Purpose::Tell => false,
    }
}

/// The view of a packet that asks for entries by the rules of its epoch.
fn asks_in_view(packet: &EpochPacket) -> Option<u64>
    ensures { result ≡ asks_in_view packet.now }
{
    if !is_step(packet.purpose) {
        return None;
    }
    match packet.packet.message() {
        Message::GetState { view, .. } => Some(*view),
        _ => None,
    }
}

impl<R: Wait> CatchingUp<R> {
    pub(crate) fn new(rt: R, log: EventLog) -> CatchingUp<R> {
        CatchingUp { rt, log }
    }

    /// Whether a packet asks for entries that came with the items of its turn, since their save comes before it.
    fn is_answered(&self, packet: &EpochPacket) -> bool {
        match asks_in_view(packet) {
            Some(view) => self.log.has_all_since(view),
            None => false,
        }
    }

    /// Sees a packet that goes out, in any epoch.
    pub(crate) fn see(&self, packet: &EpochPacket) {
        if self.is_answered(packet) {
            return;
        }
        let later = self.log.has_heard_after(packet.epoch, LOG_ENTRIES);
        if let Some(place) = lacks_after(packet, later) {
            self.log.announce_behind(&self.rt, place);
        }
    }
}
