//! What comes of an item.

use desk_node::Step;
use desk_types::{ClientId, Entry, Packet, Refusal, RequestNumber};

/// What becomes of a request that the node of the epoch did not meet.
#[derive(Drop)]
pub enum EpochAnswer {
    /// It is committed at this place of the history, counted from the first entry of all epochs.
    Committed {
        client: ClientId,
        number: RequestNumber,
        place: u64,
    },
    /// It is refused.
    Refused {
        client: ClientId,
        number: RequestNumber,
        refusal: Refusal,
    },
    /// It is to be asked again in the next epoch.
    Deferred(Entry),
}

/// What is to be sent and answered for an item.
#[derive(Drop)]
pub enum ReplicaStep {
    /// Nothing.
    Nothing,
    /// What the node of the epoch sends and answers. Its packets are of this epoch, for the rules. A place that it
    /// answers stands after so many entries of past logs in the history.
    Own {
        epoch: u64,
        base: u64,
        step: Step,
    },
    /// An answer.
    Answer(EpochAnswer),
    /// A packet of this epoch that asks a node for what the replica lacks.
    Ask {
        epoch: u64,
        to: u8,
        packet: Packet,
    },
    /// Packets of this epoch that ask all others for what the replica lacks.
    AskAll {
        epoch: u64,
        packets: Vec<(u8, Packet)>,
    },
    /// A node is to be told the log of a past epoch after a place.
    Tell {
        to: u8,
        epoch: u64,
        base: u64,
    },
    /// The replica began this epoch, and these packets are of it, for the rules. They may be sent once it is saved.
    Began {
        epoch: u64,
        packets: Vec<(u8, Packet)>,
    },
    /// The replica was replaced: another node acts under its number, and it is to stop.
    Replaced,
}
