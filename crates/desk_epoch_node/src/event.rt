//! What comes to a node over epochs.

use desk_types::{Entry, EpochPacket};

/// What comes to a node over epochs.
#[derive(Drop)]
pub enum EpochEvent {
    /// A client's request, which may be new or one that is sent again.
    Request(Entry),
    /// A packet of another node, or one of the node's own.
    Packet(EpochPacket),
    /// It is time to send again what is not acknowledged.
    Resend,
    /// The primary was not heard of for too long.
    Suspect,
    /// The node starts again with what it saved.
    Restart,
}
