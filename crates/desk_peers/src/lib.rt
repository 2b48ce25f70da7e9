//! Packets between the nodes of a group, over any streams of bytes: what peers send comes into the mailbox of a node's
//! keeper, and what the node sends goes through a queue for each other node to whoever connects to that one. A
//! connection is of one epoch and one purpose, which its header tells; where an epoch has all places that it may have,
//! one of the first epoch's steps has none.
#![tactic(auto)]

mod header;
mod incoming;
pub mod laws;
mod link;
mod outgoing;
mod queues;
mod repeats;
mod start;
mod watch;

pub use header::{
    ASK, EpochHeader, EpochPlaces, HEADER_BYTES, HEADER_MARK, MARK_BYTES, PLACES_MARK, STEP, TELL,
};
pub use incoming::take_packets;
pub use link::{Connect, PeerLink};
pub use outgoing::send_packets;
pub use queues::{PeerQueue, PeerQueues, open_queues};
pub use repeats::{LONG_PACKET_ENTRIES, REPEATS_A_PUT};
pub use watch::PacketWatch;

/// The packets that the queue to another node holds.
pub const QUEUE_PACKETS: usize = 1_024;
