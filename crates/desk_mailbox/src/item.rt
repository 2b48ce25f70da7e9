//! What is put into the mailbox of a node's keeper.

use desk_types::{Entry, EpochPacket};

/// What is put into the mailbox of a node's keeper.
#[derive(Drop)]
pub enum Item {
    /// What the session of this number asks for.
    Request { session: u64, entry: Entry },
    /// A packet from a node, with its epoch and what it is for.
    Packet(EpochPacket),
    /// Some time has gone by.
    Tick,
    /// The keeper is to end.
    Stop,
}
