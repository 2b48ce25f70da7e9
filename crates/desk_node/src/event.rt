//! What comes to a node.

use desk_types::{Entry, Packet};

/// What comes to a node.
#[derive(Drop)]
pub enum Event {
    /// A client's request, which may be new or one that is sent again.
    Request(Entry),
    /// A packet of another node, or one of the node's own.
    Packet(Packet),
    /// It is time to send again what is not acknowledged.
    Resend,
    /// The primary was not heard of for too long.
    Suspect,
    /// The node starts again with what it saved.
    Restart,
}
