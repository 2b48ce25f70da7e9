//! Packets between nodes that may be in different epochs.

use crate::packet::Packet;

/// What a packet between nodes over epochs is for.
#[derive(Clone, Copy, Debug, PartialEq, Eq)]
pub enum Purpose {
    /// The rules of its epoch.
    Step,
    /// Its sender is in its epoch, and lacks the entries after a place there. The packet is a GetState, whose
    /// view is the token of the node that asks.
    Ask,
    /// The log of its epoch, after a place, up to the epoch's end. The packet is a NewState of view 0.
    Tell,
}

/// A packet with its epoch, counted from 0, and what it is for.
#[derive(Drop)]
pub struct EpochPacket {
    pub epoch: u64,
    pub purpose: Purpose,
    pub packet: Packet,
}
