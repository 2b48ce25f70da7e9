//! Packets for another node.

ghost use Rattle.std.specs.Prelude.{◌≡◌, ◌++◌, List};
ghost use Rattle.desk_types.specs.declared.epoch_packet.EpochPacket.{EpochPacket};
ghost use Rattle.desk_mailbox.specs.declared.rule.SentItem.{SentItem};
ghost use Rattle.desk_mailbox.specs.Ends.{taken_by, IsSameTaker};
ghost use Rattle.desk_peers.specs.Outgoing.{HasCarried, packets_in};

use crate::header::EpochPlaces;
use crate::link::{Connect, PeerLink};
use crate::queues::PeerQueue;
use std::alloc::Global;
use std::sync::Wait;

/// Takes packets off a queue, and sends each over a link; it waits while the queue is empty, and ends, with the link
/// closed, once nobody can put into the queue any more. A packet that cannot be sent is lost, and the next one goes
/// over a new connection.
pub fn send_packets<C: Connect, R: Wait>(
    rt: &R,
    alloc: Global,
    places: EpochPlaces,
    queue: PeerQueue,
    connector: C,
) -> (PeerQueue, C)
    ensures node { result.0.node ≡ queue.node }
    ensures same { IsSameTaker queue.taker result.0.taker }
    // What connections carried are packets that were taken off the queue, in their order, each under its own header.
    ensures carried { (taken : List (SentItem EpochPacket))
        × (taken_by result.0.taker ≡ taken_by queue.taker ++ taken)
        × HasCarried places.places (C.closed connector) (packets_in taken) (C.closed result.1) }
{
    let PeerQueue { node, taker } = queue;
    let mut taker = taker;
    let mut link = PeerLink::new(connector);
    for _ in rt.forever() {
        let (back, taken) = taker.take(rt);
        taker = back;
        match taken {
            None => return (PeerQueue { node, taker }, link.close()),
            Some(sent) => {
                let (next, _) = link.send(alloc, places, &sent.item);
                link = next;
                drop(sent);
            }
        }
    }
    unreachable!()
}
