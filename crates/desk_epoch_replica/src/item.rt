//! What comes to a replica.

use desk_types::{Entry, EpochPacket};

/// What comes to a replica.
#[derive(Drop)]
pub enum EpochItem {
    /// What a client asks for.
    Request(Entry),
    /// A packet of a node.
    Packet(EpochPacket),
    /// Some time has gone by.
    Tick,
}
