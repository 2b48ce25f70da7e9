//! Who sees the packets of other nodes.

use desk_types::EpochPacket;

/// Sees the packets of other nodes, each before it is put into the mailbox.
pub trait PacketWatch {
    fn see(&self, packet: &EpochPacket);
}
