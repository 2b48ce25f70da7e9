//! What a node over epochs does with what comes to it.

use desk_log::Log;
use desk_node::{Node, Step};
use desk_types::{ClientId, Entry, Packet, Refusal, RequestNumber};

/// What a node over epochs does with what comes to it.
#[derive(Drop)]
pub enum EpochStep {
    /// Nothing.
    Nothing,
    /// The step of the node of its epoch. Its packets are of that epoch, and the places that it answers are counted
    /// from that epoch's first entry.
    Own(Step),
    /// The request stands in past logs, at a place that is counted from the first entry of all epochs.
    Known {
        client: ClientId,
        number: RequestNumber,
        place: u64,
    },
    /// The request is refused.
    Refused {
        client: ClientId,
        number: RequestNumber,
        refusal: Refusal,
    },
    /// The request is to be asked again in the next epoch: the log has reached the end of its own.
    Deferred(Entry),
    /// A packet of the node's epoch asks another node for what the node lacks.
    Ask {
        to: u8,
        packet: Packet,
    },
    /// Packets of the node's epoch ask all others for what the node lacks.
    AskAll {
        packets: Vec<(u8, Packet)>,
    },
    /// A node is to be sent the log of a past epoch after a place.
    Tell {
        to: u8,
        epoch: u64,
        base: u64,
    },
    /// The node was sent the whole log of its epoch, and began the next, in which it sends these packets. The log has
    /// to be saved before they are sent.
    Began {
        log: Log,
        packets: Vec<(u8, Packet)>,
    },
    /// The node was replaced: another one acts under its number, and it is to stop.
    Replaced,
}

/// The node of an epoch that ended, and what its node of the next epoch sends first.
#[derive(Drop)]
pub struct Ended {
    pub node: Node,
    pub packets: Vec<(u8, Packet)>,
}
