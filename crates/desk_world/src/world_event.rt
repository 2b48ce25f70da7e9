//! What happens in a group of nodes.

use desk_types::Entry;

/// What happens in a group of nodes. Nodes are numbered from 0, packets from 1 in the order of their sending. What
/// names a node or a packet that is not there does nothing.
#[derive(Drop)]
pub enum WorldEvent {
    /// A client's request comes to a node.
    Request(u64, Entry),
    /// A packet comes to its receiver, for the first time or again.
    Deliver(u64),
    /// A node is to send again what is not acknowledged.
    Resend(u64),
    /// A node has not heard of the primary for too long.
    Suspect(u64),
    /// A node starts again with what it saved.
    Restart(u64),
}
